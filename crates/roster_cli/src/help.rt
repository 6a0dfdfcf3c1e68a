// What the command can do.
use crate::say::all;
use std::io;

fn tell_commands(rt: &impl Print) -> io::Result<()> {
    all(
        rt,
        b"./roster                      the demo\n\
          ./roster demo                 a built-in board, from a split's admission to its cut\n\
          ./roster show FILE            the roster of a snapshot, as people read it\n\
          ./roster check FILE           the seat check: yes, or each clause that fails and who breaks it\n\
          ./roster diff FILE FILE       what changed between two snapshots\n\
          ./roster step FILE NAME ARGS [--draws FILE or numbers] [--out FILE]\n\
          \x20                             a step on a snapshot: its answer, and what changed; the new\n\
          \x20                             snapshot is written only with --out\n\
          ./roster help                 this\n\
          \n\
          The steps of `./roster step FILE NAME`, with the numbers and draws that each takes:\n",
        11,
    )
}

fn tell_steps(rt: &impl Print) -> io::Result<()> {
    all(
        rt,
        b"  tick                              the epoch plus one\n\
          \x20 time_out                          waiting machines at their deadline become ready\n\
          \x20 admit_split TARGET                a split is admitted\n\
          \x20 draw_cohort TARGET --draws ..     its cohort is drawn from the pool\n\
          \x20 mark_seat_ready TARGET MACHINE    a seat of a reshape is ready\n\
          \x20 mark_quiet TARGET SIDE            a reshape is quiet on side 0 or 1\n\
          \x20 lapse TARGET                      a split's cohort goes back to the pool\n\
          \x20 schedule_splits --draws ..        splits that are due drain, then get a terminal\n\
          \x20 cut_splits                        splits at their terminal are cut\n\
          \x20 admit_merge TARGET --draws ..     a merge is admitted, and its keepers are drawn\n\
          \x20 schedule_merges                   the same for merges\n\
          \x20 cut_merges                        merges at their terminal are cut\n\
          \x20 leave MACHINE --draws ..          a machine falls short of stake\n\
          \x20 rotate SHARD MACHINE --draws ..   a rotation opens against a machine\n\
          \x20 resolve                           rotations with a ready entrant close\n\
          \n\
          Draws are numbers with blanks, commas or line ends between them; a word that begins with no\n\
          digit is the name of a file of them. A line that begins with 'mistake: ' says what was wrong;\n\
          nothing is written then, and the command's status is 2.\n",
        19,
    )
}

pub(crate) fn tell(rt: &impl Print) -> io::Result<()> {
    tell_commands(rt)?;
    tell_steps(rt)
}
