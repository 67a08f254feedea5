//! Runs of the program over ports in memory.

use plan_port::{MemoryPort, Port, SteadyPort};
use std::alloc::{AllocError, Global};
use std::process::Abort;
use std::test::Fail;
use std::thread::Threads;
use stnu_run::run;

/// Rows: the words, the input, what is put, and the exit status; `|` stands for a line end.
const RUNS: &str =
    "stnu judge => stnu 1|point A|point B|bound b1 A B 3|bound b2 B A -5|end|certificate 1|refutation|bound b1 A B 3|bound b2 B A -5|no 1 2 A A -2|walk 3|end| => accepted not controllable| => 0
stnu judge => # a plan|stnu 1|point A|point B|bound b1 A B 3|bound b2 B A -5|end||certificate 1|refutation|bound b1 A B 3|bound b2 B A -5|no 1 2 A A -2|walk 3|end => accepted not controllable| => 0
stnu judge => stnu 1|point A|point B|bound b1 A B 3|bound b2 B A -5|end|certificate 1|refutation|bound b1 A B 3|bound b2 B A -5|no 1 2 A A -2|walk 3|end|nothing here|is looked at => accepted not controllable| => 0
stnu judge => stnu 1|point A|point C|point D|bound b1 D C 1|bound b2 C D -1|link A 3 8 C|end|certificate 1|refutation|bound b1 D C 1|bound b2 C D -1|link C C A -8|low C 2 A D 2|up 1 3 D A C -7|drop 5 D A -3|no 4 6 A A -1|walk 7|end| => accepted not controllable| => 0
stnu judge => stnu 1|point A|point C|point D|bound b1 D C 1|bound b2 C D -1|link A 3 8 C|end|certificate 1|refutation|bound b1 D C 1|bound b2 C D -1|link C C A -8|low C 2 A D 1|up 1 3 D A C -7|drop 5 D A -3|no 4 6 A A -1|walk 7|end| => refused 4 too-low 1 2| => 1
stnu judge => stnu 1|point A|point C|point D|bound b1 D C 1|bound b2 C D -1|link A 3 8 C|end|certificate 1|refutation|bound b1 D C 1|bound b2 C D -1|link C C A -8|low C 2 A D 3|up 1 3 D A C -7|drop 5 D A -3|no 4 6 A A 0|walk 7|end| => refused 8 walk-not-negative 0| => 1
stnu judge => stnu 1|point A|point C|point D|bound b1 D C 1|bound b2 C D -1|link A 3 8 C|end|certificate 1|refutation|bound b1 D C 1|bound b2 C D -1|link C C A -8|low C 2 A D 2|up 1 3 D A C -7|drop 5 D A -3|no 4 7 A A -1|walk 7|end| => refused 7 premise| => 1
stnu judge => stnu 1|end|certificate 1|refutation|end| => refused 1 walk-broken| => 1
stnu deadline A D => stnu 1|point A|point C|point D|bound b1 D C 4|link A 3 8 C|end| => controllable|deadline A D 4|certificate 1|table|order A|order C|order D|edge A A 0|upper A C 0|edge C A -3|upper C C -8|edge D A -3|upper D C -4|edge D C 4|edge A D 4|end|certificate 1|refutation|bound b1 D C 4|bound goal A D 3|link C C A -8|up 1 3 D A C -4|up 2 4 A A C -1|drop 5 A A -1|walk 6|end| => 0
stnu deadline A C => stnu 1|point A|point C|point D|bound b1 D C 4|link A 3 8 C|end| => controllable|deadline A C 8|certificate 1|table|order A|order C|order D|edge A A 0|upper A C 0|edge C A -3|upper C C -8|edge D A -3|upper D C -4|edge A C 8|edge D C 4|end|certificate 1|refutation|bound goal A C 7|link C C A -8|up 1 2 A A C -1|drop 3 A A -1|walk 4|end| => 0
stnu deadline --workers=2 D D => stnu 1|point A|point C|point D|bound b1 D C 4|link A 3 8 C|end| => controllable|deadline D D 0|certificate 1|table|order A|order C|order D|edge A A 0|edge C A -3|upper C C -8|edge D A -3|upper D C -4|edge D C 4|edge D D 0|end|certificate 1|refutation|bound goal D D -1|walk 1|end| => 0
stnu deadline A B => stnu 1|point A|point B|end| => controllable|deadline A B at-most -1000000000|certificate 1|table|order B|order A|edge A B -1000000000|end| => 0
stnu deadline A C => stnu 1|point A|point B|point C|bound p B A -1000000000|bound q C B -1|end| => controllable|deadline A C none|certificate 1|refutation|bound p B A -1000000000|bound q C B -1|bound goal A C 1000000000|no 3 2 A B 999999999|no 4 1 A A -1|walk 5|end| => 0
stnu deadline A B --workers 7 => stnu 1|point A|point B|bound goal B A -2|bound goal.1 A B 9|end| => controllable|deadline A B 2|certificate 1|table|order A|order B|edge A A 0|edge B A -2|edge A B 2|end|certificate 1|refutation|bound goal B A -2|bound goal.2 A B 1|no 2 1 A A -1|walk 3|end| => 0
stnu deadline C D => stnu 2|delay 1|point A|point C|point D|bound b1 D C 4|link A 3 8 C|end| => controllable|deadline C D 1|certificate 1|table|order A|order C|order D|edge A A 0|edge C A -4|upper C C -9|edge D A -4|upper D C -4|edge D C 5|edge C D 0|end|certificate 1|refutation|bound b1 D C 5|bound goal C D -1|link C C A -9|up 1 3 D A C -4|drop 4 D A -4|low C 2 A D 3|no 6 5 A A -1|walk 7|end| => 0
stnu deadline D C => stnu 1|point A|point C|point D|bound b1 D C 1|bound b2 C D -1|link A 3 8 C|end| => not controllable|certificate 1|refutation|bound b1 D C 1|bound b2 C D -1|link C C A -8|up 1 3 D A C -7|low C 2 A D 2|up 5 4 A A C -5|drop 6 A A -3|walk 7|end| => 1
stnu deadline A --json B => {\"stnu\":1,\"points\":[\"A\",\"B\"],\"bounds\":[|{\"name\":\"b2\",\"from\":\"B\",\"to\":\"A\",\"most\":-5}]}|end| => controllable|deadline A B 5|certificate 1|table|order A|order B|edge A A 0|edge B A -5|edge A B 5|end|certificate 1|refutation|bound b2 B A -5|bound goal A B 4|no 2 1 A A -1|walk 3|end| => 0
stnu deadline A Q => stnu 1|point A|point C|point D|bound b1 D C 4|link A 3 8 C|end| => error plan 7 unknown-name| => 3
stnu deadline Q A => stnu 1|point A|point C|point D|bound b1 D C 1|bound b2 C D -1|link A 3 8 C|end| => error plan 8 unknown-name| => 3
stnu deadline A Q --json => {\"stnu\":1,\"points\":[\"A\",\"B\"],\"bounds\":[|{\"name\":\"b2\",\"from\":\"B\",\"to\":\"A\",\"most\":-5}]}|end| => error plan 0 unknown-name| => 3
stnu deadline A Q => stnu 1|point A|point A|end| => error plan 3 duplicate-name| => 3
stnu deadline A => stnu 1|point A|point C|point D|bound b1 D C 4|link A 3 8 C|end| => error words| => 2
stnu deadline A 1D => stnu 1|point A|point C|point D|bound b1 D C 4|link A 3 8 C|end| => error words| => 2
stnu deadline A D D => stnu 1|point A|point C|point D|bound b1 D C 4|link A 3 8 C|end| => error words| => 2
stnu deadline A D --delay 0 => stnu 1|point A|point C|point D|bound b1 D C 4|link A 3 8 C|end| => error words| => 2
stnu deadline A D --workers 0 => stnu 1|point A|point C|point D|bound b1 D C 4|link A 3 8 C|end| => error words| => 2
stnu strong => stnu 1|point A|point B|bound b1 A B 5|bound b2 B A -2|end| => strongly controllable|time A 0|time B 2| => 0
stnu strong => stnu 1|point A|point C|point D|bound b1 D C 4|link A 3 8 C|end| => strongly controllable|time A 0|time D 4| => 0
stnu strong => stnu 1|point A|point C|point D|bound e1 C D 0|bound e2 D C 0|link A 3 8 C|end| => not strongly controllable|strong 1|by e1 A D 3|by e2 D A -8|end| => 1
stnu strong => stnu 2|delay 5|point A|point C|point D|bound e1 C D 0|bound e2 D C 0|link A 3 8 C|end| => not strongly controllable|strong 1|by e1 A D 3|by e2 D A -8|end| => 1
stnu strong => stnu 1|point A|point B|link A 1 2 B|link B 1 2 A|end| => not strongly controllable|strong 1|ring A|ring B|end| => 1
stnu strong => stnu 1|end| => strongly controllable| => 0
stnu strong --json => {\"stnu\":1,\"points\":[\"A\",\"B\"],\"bounds\":[|{\"name\":\"b1\",\"from\":\"A\",\"to\":\"B\",\"most\":3},{\"name\":\"b2\",\"from\":\"B\",\"to\":\"A\",\"most\":-5}]}|end| => not strongly controllable|strong 1|by b1 A B 3|by b2 B A -5|end| => 1
stnu strong => stnu 1|point A|point A|end| => error plan 3 duplicate-name| => 3
stnu strong --workers 2 => stnu 1|point A|point B|bound b1 A B 5|bound b2 B A -2|end| => error words| => 2
stnu strong --delay 0 => stnu 1|point A|point B|bound b1 A B 5|bound b2 B A -2|end| => error words| => 2
stnu judge --strong => stnu 1|point A|point C|point D|bound e1 C D 0|bound e2 D C 0|link A 3 8 C|end|strong 1|by e1 A D 3|by e2 D A -8|end| => accepted not strongly controllable| => 0
stnu judge --strong => stnu 2|delay 5|point A|point C|point D|bound e1 C D 0|bound e2 D C 0|link A 3 8 C|end|strong 1|by e1 A D 3|by e2 D A -8|end| => accepted not strongly controllable| => 0
stnu judge --strong => stnu 1|point A|point C|point D|bound e1 C D 0|bound e2 D C 0|link A 3 8 C|end|strong 1|by e1 A D 2|by e2 D A -8|end| => refused 1 too-low 2 3| => 1
stnu judge --strong => stnu 1|point A|point C|point D|bound e1 C D 0|bound e2 D C 0|link A 3 8 C|end|strong 1|end| => refused 1 walk-broken| => 1
stnu judge --strong => stnu 1|point A|point C|point D|bound e1 C D 0|bound e2 D C 0|link A 3 8 C|end|strong 1|by e1 A D 3|ring C|end| => error format 11 unknown-word| => 3
stnu judge --strong => stnu 1|point A|point C|point D|bound e1 C D 0|bound e2 D C 0|link A 3 8 C|end|certificate 1|refutation|end| => error format 9 no-header| => 3
stnu judge --strong => stnu 1|point A|point C|point D|bound e1 C D 0|bound e2 D C 0|link A 3 8 C|end| => error format 9 no-header| => 3
stnu judge => stnu 1|point A|point C|point D|bound e1 C D 0|bound e2 D C 0|link A 3 8 C|end|strong 1|by e1 A D 3|by e2 D A -8|end| => error format 9 no-header| => 3
stnu judge --strong --delay 0 => stnu 1|point A|point C|point D|bound e1 C D 0|bound e2 D C 0|link A 3 8 C|end|strong 1|by e1 A D 3|by e2 D A -8|end| => error words| => 2
stnu fleet => fleet 1|plan x|stnu 1|point A|point B|bound b1 A B 5|bound b2 B A -2|end|plan y|stnu 1|point A|point C|point D|bound b1 D C 4|link A 3 8 C|end|go|x at 0|y at 0|y at 2 C|x at 2|x done|y done|end| => x controllable|x due 0|y controllable|y due 0|x act 0 A|x due 2|y act 0 A|y due 4|y error event 2 too-soon C 3|x act 2 B|x due none|x complete|y idle| => 0
stnu fleet => fleet 1|plan z|stnu 1|point A|point A|end|go|z done|end| => z refused plan 2 duplicate-name|z idle| => 0
stnu fleet => fleet 1|go|q done| => error format 3 unknown-name| => 3
stnu fleet => # two plans||fleet 1|plan end|stnu 1|point A|point B|bound b1 A B 5|bound b2 B A -2|end|plan y|stnu 2|delay 1|point A|point C|link A 3 8 C|end|go|end at 0|end # x||y|y at 0|y at 9 C|y done|end # y|end at 2|end x|end|nothing here|is looked at => end controllable|end due 0|y controllable|y due 0|end act 0 A|end due 2|y act 0 A|y due none|y due none|y complete|end act 2 B|end due none|end error format 5 unknown-word| => 0
stnu fleet => fleet 1|plan n|stnu 1|point A|point B|bound b1 A B 3|bound b2 B A -5|end|plan w|stnu 2|point A|between w A 1 2 B|point B|end|plan f|stnu 1|point A|link A 1 2 A|end|go|n at 0|n|n x|w done|f # x|end| => n not controllable|w refused plan 2 unknown-name|f refused plan 2 link-to-itself|n idle|n idle|w idle| => 0
stnu fleet => fleet 1|plan x|stnu 1|point A|end|go|x at 0|x at 0|x at 4000000000001|end| => x controllable|x due 0|x act 0 A|x due none|x error event 2 not-later 0|x idle| => 0
stnu fleet => fleet 1|plan x|stnu 1|point A|end|go|x|x at|x done|end| => x controllable|x due 0|x error format 2 word-count|x idle| => 0
stnu fleet => fleet 1|plan x|stnu 1|point A|end|go|x at 4000000000001|end| => x controllable|x due 0|x error limit 1 moment| => 0
stnu fleet => fleet 1|plan x|stnu 1|point A|end|plan x| => error format 6 duplicate-plan| => 3
stnu fleet => fleet 1|plan x|stnu 1|point A|end|plan 1| => error format 6 bad-name| => 3
stnu fleet => fleet 1|plan x|stnu 1|point A|end|plan x y| => error format 6 word-count| => 3
stnu fleet => fleet 1|plan x| => error format 3 no-header| => 3
stnu fleet => fleet 1|plan x|stnu 1|point A|end| => error format 6 no-end| => 3
stnu fleet => fleet 1|go now| => error format 2 word-count| => 3
stnu fleet => fleet 1|point A| => error format 2 unknown-word| => 3
stnu fleet => fleet 2|go| => error format 1 no-header| => 3
stnu fleet =>  => error format 1 no-header| => 3
stnu fleet => fleet 1|go| => error format 3 no-end| => 3
stnu fleet => fleet 1|go|end x| => error format 3 unknown-name| => 3
stnu fleet => fleet 1|plan x|stnu 1|point A|end|go|x at 0 => x controllable|x due 0|x act 0 A|x due none|error format 8 no-end| => 3
stnu fleet => fleet 1|go|end =>  => 0
stnu fleet --json => fleet 1|go|end| => error words| => 2
stnu fleet --delay 0 => fleet 1|go|end| => error words| => 2
stnu fleet --workers 2 => fleet 1|go|end| => error words| => 2
stnu judge => stnu 1|point A|point B|bound b1 A B 5|bound b2 B A -2|end|certificate 1|table|order A|order B|edge A A 3|edge B A -2|edge A B 5|end| => accepted controllable| => 0
stnu judge => stnu 1|point A|point B|bound b1 A B 5|bound b2 B A -2|end|certificate 1|table|order A|order B|edge B A -2|edge A B 5|end| => refused 3 not-closed| => 1
stnu judge => stnu 1|point A|point B|bound b1 A B 5|bound b2 B A -2|end|certificate 1|table|order B|order A|edge A A 3|edge B A -2|edge A B 5|end| => refused 4 order-broken| => 1
stnu judge => stnu 1|point A|point B|bound b1 A B 5|bound b2 B A -2|end|certificate 1|table|order A|order B|edge A A 3|edge B A -2|end| => refused 0 missing-base bound b1| => 1
stnu judge => stnu 1|point A|point C|point D|bound b1 D C 4|link A 3 8 C|end|certificate 1|table|order A|order C|order D|edge A A 0|edge C A -3|upper C C -8|edge D A -3|upper D C -4|edge D C 4|end| => accepted controllable| => 0
stnu judge => stnu 1|point A|point C|point D|bound b1 D C 4|link A 3 8 C|end|certificate 1|table|order A|edge A A 0|order C|end| => error format 12 unknown-word| => 3
stnu judge => stnu 1|point A|point B|bound b1 A B 5|bound b2 B A -2|end|certificate 1|table|order A|order B|edge A A 2|edge B A -2|edge A B 5|end| => accepted controllable| => 0
stnu check --proof => stnu 1|point A|point B|bound b1 A B 5|bound b2 B A -2|end| => controllable|certificate 1|table|order A|order B|edge A A 3|edge B A -2|edge A B 5|end| => 0
stnu check --workers 2 --proof => stnu 1|point A|point C|point D|bound b1 D C 4|link A 3 8 C|end| => controllable|certificate 1|table|order A|order C|order D|edge A A 0|edge C A -3|upper C C -8|edge D A -3|upper D C -4|edge D C 4|end| => 0
stnu check --engine cells --proof --workers 2 => stnu 1|point A|point B|bound b1 A B 5|bound b2 B A -2|end| => controllable|certificate 1|table|order A|order B|edge A A 3|edge B A -2|edge A B 5|end| => 0
stnu check --engine cells --proof --workers 2 => stnu 1|point A|point C|point D|bound b1 D C 1|bound b2 C D -1|link A 3 8 C|end| => not controllable|certificate 1|refutation|bound b1 D C 1|bound b2 C D -1|link C C A -8|up 1 3 D A C -7|low C 2 A D 2|up 5 4 A A C -5|drop 6 A A -3|walk 7|end| => 1
stnu check --engine cells --proof --workers 2 => stnu 1|point A|point C|point D|bound b1 D C 4|link A 3 8 C|end| => controllable|certificate 1|table|order A|order C|order D|edge A A 0|edge C A -3|upper C C -8|edge D A -3|upper D C -4|edge D C 4|end| => 0
stnu check --engine cells --proof --workers 2 => stnu 1|point A1|point C1|point A2|point C2|bound p A1 C2 2|bound q A2 C1 2|link A1 1 10 C1|link A2 1 10 C2|end| => not controllable|certificate 1|refutation|bound p A1 C2 2|bound q A2 C1 2|link C1 C1 A1 -10|link C2 C2 A2 -10|up 2 3 A2 A1 C1 -8|drop 5 A2 A1 -1|up 1 4 A1 A2 C2 -8|drop 7 A1 A2 -1|walk 8|walk 6|end| => 1
stnu check --engine=cells --delay 1 => stnu 1|point A|point C|point D|bound e1 C D 0|bound e2 D C 0|link A 3 8 C|end| => not controllable|certificate 1|refutation|bound e1 C D -1|bound e2 D C 1|link C C A -9|up 2 3 D A C -8|low C 1 A D 3|up 5 4 A A C -5|drop 6 A A -4|walk 7|end| => 1
stnu check --engine=rounds => stnu 1|end| => controllable| => 0
stnu check --engine => stnu 1|end| => error words| => 2
stnu check --engine= => stnu 1|end| => error words| => 2
stnu check --engine Cells => stnu 1|end| => error words| => 2
stnu check --engine cell => stnu 1|end| => error words| => 2
stnu check --engine rounds --engine=cells => stnu 1|end| => error words| => 2
stnu judge --engine cells => stnu 1|end| => error words| => 2
stnu run --engine cells => stnu 1|end| => error words| => 2
stnu session --engine cells => stnu 1|end| => error words| => 2
stnu strong --engine cells => stnu 1|end| => error words| => 2
stnu show --engine cells => stnu 1|end| => error words| => 2
stnu check --proof => stnu 1|end| => controllable|certificate 1|table|end| => 0
stnu check --proof => stnu 1|point A|point B|bound b1 A B 3|bound b2 B A -5|end| => not controllable|certificate 1|refutation|bound b1 A B 3|bound b2 B A -5|no 1 2 A A -2|walk 3|end| => 1
stnu check --proof --proof => stnu 1|end| => error words| => 2
stnu check --proof=1 => stnu 1|end| => error words| => 2
stnu check --workers --proof => stnu 1|end| => error words| => 2
stnu run --proof => stnu 1|end| => error words| => 2
stnu judge => stnu 1|point A|point C|point D|bound b1 D C 1|bound b2 C D -1|link A 3 8 C| => error format 8 no-end| => 3
stnu judge =>  => error format 1 no-header| => 3
stnu judge => point A|end| => error format 1 no-header| => 3
stnu judge => stnu 1|point A|point A|end| => error plan 3 duplicate-name| => 3
stnu judge => stnu 1|point A|point B|link A 0 4 B|end| => error plan 4 bad-interval| => 3
stnu judge => stnu 1|point A|link A 1 2 A|end| => error plan 3 link-to-itself| => 3
stnu judge => stnu 1|point A|point A| => error format 4 no-end| => 3
stnu judge => stnu 1|end|certificate 2|end| => error format 3 no-header| => 3
stnu judge => stnu 1|end|certificate 1|refutation|walk 1 => error format 6 no-end| => 3
stnu judge => stnu 1|end|certificate 1|refutation|walk|end| => error format 5 word-count| => 3
stnu judge => stnu 1|point A|point B|bound b1 A B 1000000001|bound b2 B A -2|end| => error limit 4 number| => 4
stnu chek => stnu 1|end| => error words| => 2
stnu judge judge => stnu 1|end| => error words| => 2
stnu => stnu 1|end| => error words| => 2
stnu check --workers 0 => stnu 1|end| => error words| => 2
stnu check --workers 2 --workers 2 => stnu 1|end| => error words| => 2
stnu check --workers 2 --workers=2 => stnu 1|end| => error words| => 2
stnu check --workers= => stnu 1|end| => error words| => 2
stnu check --workers => stnu 1|end| => error words| => 2
stnu check --workers 65 => stnu 1|end| => error words| => 2
stnu check --workers 064 => stnu 1|end| => error words| => 2
stnu check --workers +2 => stnu 1|end| => error words| => 2
stnu check --work 2 => stnu 1|end| => error words| => 2
stnu check -- --workers 2 => stnu 1|end| => error words| => 2
stnu check --workers --workers=2 => stnu 1|end| => error words| => 2
stnu judge --workers 2 => stnu 1|end| => error words| => 2
stnu run --workers=2 => stnu 1|point A|point B|bound b1 A B 5|bound b2 B A -2|end|at 0|at 2|done| => controllable|due 0|act 0 A|due 2|act 2 B|due none|complete| => 0
stnu run => stnu 1|point A|point B|bound b1 A B 5|bound b2 B A -2|end|at 0|at 2|done| => controllable|due 0|act 0 A|due 2|act 2 B|due none|complete| => 0
stnu run => stnu 1|end|done| => controllable|due none|complete| => 0
stnu run => stnu 1|point A|point B|bound b1 A B 3|bound b2 B A -5|end|at 0|done| => not controllable|certificate 1|refutation|bound b1 A B 3|bound b2 B A -5|no 1 2 A A -2|walk 3|end| => 1
stnu run => stnu 1|point A|point C|point D|bound e1 C D 0|bound e2 D C 0|link A 3 8 C|end|at 0|at 5 C|done| => controllable|due 0|act 0 A|due 8|act 5 D|due none|complete| => 0
stnu run => stnu 1|point A|point C|point D|bound b1 D C 4|link A 3 8 C|end|at 0|at 3 C|done| => controllable|due 0|act 0 A|due 4|act 3 D|due none|complete| => 0
stnu run => stnu 1|point A|point C|point D|bound b1 D C 4|link A 3 8 C|end|at 0|at 4|at 8 C|done| => controllable|due 0|act 0 A|due 4|act 4 D|due none|due none|complete| => 0
stnu run => stnu 1|point A|point C|point D|bound b1 D C 4|link A 3 8 C|end|# a remark||at 0|at 9 C| => controllable|due 0|act 0 A|due 4|error event 11 overdue C 8| => 7
stnu run => stnu 1|point A|point C|point D|bound b1 D C 1|bound b2 C D -1|link A 5 5 C|end|at 0|at 4|at 5 C|done| => controllable|due 0|act 0 A|due 4|act 4 D|due none|due none|complete| => 0
stnu run => stnu 1|point A|point C|point D|bound b1 D C 4|link A 3 8 C|end|at 0|at 2 C| => controllable|due 0|act 0 A|due 4|error event 9 too-soon C 3| => 7
stnu run => stnu 1|point A|point C|point D|bound b1 D C 4|link A 3 8 C|end|at 0|at 9| => controllable|due 0|act 0 A|due 4|error event 9 overdue C 8| => 7
stnu run => stnu 1|point A|point C|point D|bound b1 D C 4|link A 3 8 C|end|at 0|at 8| => controllable|due 0|act 0 A|due 4|error event 9 overdue C 8| => 7
stnu run => stnu 1|point A|point C|point D|bound b1 D C 4|link A 3 8 C|end|at 0|at 4|at 8 C|at 8| => controllable|due 0|act 0 A|due 4|act 4 D|due none|due none|error event 11 not-later 8| => 7
stnu run => stnu 1|point A|point C|point D|bound b1 D C 4|link A 3 8 C|end|at 0|at 4 C C| => controllable|due 0|act 0 A|due 4|error event 9 twice C 4| => 7
stnu run => stnu 1|point A|point C|point D|bound b1 D C 4|link A 3 8 C|end|at 0 C| => controllable|due 0|error event 8 not-active C| => 7
stnu run => stnu 1|point A|point C|point D|bound b1 D C 4|link A 3 8 C|end|at 0 D| => controllable|due 0|error event 8 not-contingent D| => 7
stnu run => stnu 1|point A|point C|point D|bound b1 D C 4|link A 3 8 C|end|done| => controllable|due 0|error event 8 unfinished C| => 7
stnu run => stnu 1|point A|point C|point D|bound b1 D C 4|link A 3 8 C|end|at 0 Q| => controllable|due 0|error format 8 unknown-name| => 3
stnu run => stnu 1|point A|point C|point D|bound b1 D C 4|link A 3 8 C|end|at 4000000000001| => controllable|due 0|error limit 8 moment| => 4
stnu run => stnu 1|point A|point C|point D|bound b1 D C 4|link A 3 8 C|end|at 0| => controllable|due 0|act 0 A|due 4|error format 9 no-end| => 3
stnu judge => stnu 1|point A|bound b A A -1|end|certificate 1|refutation|bound b A A -1|no 1 1 A A -2|no 2 2 A A -4|no 3 3 A A -8|no 4 4 A A -16|no 5 5 A A -32|no 6 6 A A -64|no 7 7 A A -128|no 8 8 A A -256|no 9 9 A A -512|no 10 10 A A -1024|no 11 11 A A -2048|no 12 12 A A -4096|no 13 13 A A -8192|no 14 14 A A -16384|no 15 15 A A -32768|no 16 16 A A -65536|no 17 17 A A -131072|no 18 18 A A -262144|no 19 19 A A -524288|no 20 20 A A -1048576|no 21 21 A A -2097152|no 22 22 A A -4194304|no 23 23 A A -8388608|no 24 24 A A -16777216|no 25 25 A A -33554432|no 26 26 A A -67108864|no 27 27 A A -134217728|no 28 28 A A -268435456|no 29 29 A A -536870912|no 30 30 A A -1073741824|no 31 31 A A -2147483648|no 32 32 A A -4294967296|no 33 33 A A -8589934592|no 34 34 A A -17179869184|no 35 35 A A -34359738368|no 36 36 A A -68719476736|no 37 37 A A -137438953472|no 38 38 A A -274877906944|no 39 39 A A -549755813888|no 40 40 A A -1099511627776|end| => refused 41 weight-range| => 1
stnu judge => stnu 1|point A|bound b A A -1|end|certificate 1|refutation|bound b A A -1|no 1 1 A A -2|no 2 2 A A -4|no 3 3 A A -8|no 4 4 A A -16|no 5 5 A A -32|no 6 6 A A -64|no 7 7 A A -128|no 8 8 A A -256|no 9 9 A A -512|no 10 10 A A -1024|no 11 11 A A -2048|no 12 12 A A -4096|no 13 13 A A -8192|no 14 14 A A -16384|no 15 15 A A -32768|no 16 16 A A -65536|no 17 17 A A -131072|no 18 18 A A -262144|no 19 19 A A -524288|no 20 20 A A -1048576|no 21 21 A A -2097152|no 22 22 A A -4194304|no 23 23 A A -8388608|no 24 24 A A -16777216|no 25 25 A A -33554432|no 26 26 A A -67108864|no 27 27 A A -134217728|no 28 28 A A -268435456|no 29 29 A A -536870912|no 30 30 A A -1073741824|no 31 31 A A -2147483648|no 32 32 A A -4294967296|no 33 33 A A -8589934592|no 34 34 A A -17179869184|no 35 35 A A -34359738368|no 36 36 A A -68719476736|no 37 37 A A -137438953472|no 38 38 A A -274877906944|no 39 39 A A -549755813888|walk 40|end| => accepted not controllable| => 0
stnu judge => stnu 1|point A|bound b A A -1|end|certificate 1|refutation|bound b A A -1000000000000000000|end| => error limit 7 number| => 4
stnu judge => stnu 1|point A|bound b A A -1|end|certificate 1|refutation|no 18446744073709551616 1 A A -2|end| => error limit 7 number| => 4
stnu judge => stnu 1|point A|bound b A A -1|end|certificate 1|refutation|no 0 1 A A -2|end| => refused 1 premise| => 1
stnu judge => stnu 1|point A|bound b A A -1|end|certificate 1|refutation|no -1 1 A A -2|end| => error format 7 bad-number| => 3
stnu judge => stnu 1|point A|bound b A A -1|end|certificate 1|refutation|end| => refused 1 walk-broken| => 1
stnu run => stnu 1|point A|point C|point D|bound b1 D C 4|link A 3 8 C|end|at 01| => controllable|due 0|error format 8 bad-number| => 3
stnu run => stnu 1|point A|point C|point D|bound b1 D C 4|link A 3 8 C|end|at 0 C!| => controllable|due 0|error format 8 bad-name| => 3
stnu check --delay 1 => stnu 1|point A|point C|point D|bound e1 C D 0|bound e2 D C 0|link A 3 8 C|end| => not controllable|certificate 1|refutation|bound e1 C D -1|bound e2 D C 1|link C C A -9|up 2 3 D A C -8|low C 1 A D 3|up 5 4 A A C -5|drop 6 A A -4|walk 7|end| => 1
stnu judge --delay 1 => stnu 1|point A|point C|point D|bound e1 C D 0|bound e2 D C 0|link A 3 8 C|end|certificate 1|refutation|bound e1 C D -1|bound e2 D C 1|link C C A -9|up 2 3 D A C -8|low C 1 A D 3|up 5 4 A A C -5|drop 6 A A -4|walk 7|end| => accepted not controllable| => 0
stnu judge => stnu 1|point A|point C|point D|bound e1 C D 0|bound e2 D C 0|link A 3 8 C|end|certificate 1|refutation|bound e1 C D -1|bound e2 D C 1|link C C A -9|up 2 3 D A C -8|low C 1 A D 3|up 5 4 A A C -5|drop 6 A A -4|walk 7|end| => refused 1 too-low -1 0| => 1
stnu run --delay 1 => stnu 1|point A|point C|point D|bound b1 D C 4|link A 3 8 C|end|at 0|at 4 C|done| => controllable|due 0|act 0 A|due 4|act 4 D|due none|complete| => 0
stnu run --delay=1 --workers 2 => stnu 1|point A|point C|point D|bound b1 D C 4|link A 3 8 C|end|at 0|at 3 C| => controllable|due 0|act 0 A|due 4|error event 9 too-soon C 4| => 7
stnu run --delay 1 => stnu 1|point A|point C|point D|bound b1 D C 4|link A 3 8 C|end|at 0|at 9| => controllable|due 0|act 0 A|due 4|error event 9 overdue C 9| => 7
stnu run --feeders 2 => stnu 1|point A1|point C1|point A2|point C2|bound b1 C1 C2 2|link A1 1 3 C1|link A2 2 6 C2|end|at 0|at 2 C2|at 3 C1|done| => controllable|due 0|act 0 A2|due 3|act 2 A1|due none|due none|complete| => 0
stnu run --feeders 2 => stnu 1|point A|point C|point D|bound b1 D C 4|link A 3 8 C|end|at 0|at 4 C C| => controllable|due 0|act 0 A|due 4|error event 9 twice C 4| => 7
stnu run --feeders 2 => stnu 1|point A|point C|point D|bound e1 C D 0|bound e2 D C 0|link A 3 8 C|end|at 0|at 5 C|done| => controllable|due 0|act 0 A|due 8|act 5 D|due none|complete| => 0
stnu run --feeders 2 => stnu 1|point A|point C|point D|bound b1 D C 4|link A 3 8 C|end|at 0|at 3 C|done| => controllable|due 0|act 0 A|due 4|act 3 D|due none|complete| => 0
stnu run --feeders=2 --workers 2 => stnu 1|point A|point C|point D|bound b1 D C 4|link A 3 8 C|end|at 0|at 4|at 8 C|done| => controllable|due 0|act 0 A|due 4|act 4 D|due none|due none|complete| => 0
stnu run => stnu 1|point A|point C|point D|bound b1 D C 4|link A 3 8 C|end|at 0|at 4 D A| => controllable|due 0|act 0 A|due 4|error event 9 not-contingent D| => 7
stnu run --feeders 1 => stnu 1|point A|point C|point D|bound b1 D C 4|link A 3 8 C|end|at 0|at 4 D A| => controllable|due 0|act 0 A|due 4|error event 9 not-contingent A| => 7
stnu run --feeders 64 --delay 1 => stnu 1|point A|point C|point D|bound b1 D C 4|link A 3 8 C|end|at 0|at 4 C|done| => controllable|due 0|act 0 A|due 4|act 4 D|due none|complete| => 0
stnu run --feeders 7 => stnu 1|point A|point C|point D|bound b1 D C 4|link A 3 8 C|end|at 0|at 4 Q C| => controllable|due 0|act 0 A|due 4|error format 9 unknown-name| => 3
stnu run --feeders 2 => stnu 1|end|at 0|done| => controllable|due none|due none|complete| => 0
stnu run --feeders 0 => stnu 1|end| => error words| => 2
stnu run --feeders=65 => stnu 1|end| => error words| => 2
stnu run --feeders => stnu 1|end| => error words| => 2
stnu check --feeders 2 => stnu 1|end| => error words| => 2
stnu play shortest --delay 1 => stnu 1|point A|point C|point D|bound b1 D C 4|link A 3 8 C|end| => controllable|time A 0|time C 3|time D 4| => 0
stnu play longest --delay 1 => stnu 1|point A|point C|point D|bound b1 D C 4|link A 3 8 C|end| => controllable|time A 0|time C 8|time D 4| => 0
stnu session --delay 1 => stnu 1|point A|point C|point D|bound b1 D C 4|end|add link A 3 8 C|report|table|proof|plan|end| => ready|ok|report 0 1 2|after D A 4|wait D C 4|table end|certificate 1|table|order A|order C|order D|edge A A 0|edge C A -4|upper C C -9|edge D A -4|upper D C -4|edge D C 5|end|stnu 2|delay 1|point A|point C|point D|bound b1 D C 4|link A 3 8 C|end| => 0
stnu session --delay 1000000 => stnu 1|end|verdict|end| => ready|controllable| => 0
stnu check --delay 1000001 => stnu 1|end| => error words| => 2
stnu check --delay -1 => stnu 1|end| => error words| => 2
stnu check --delay 01 => stnu 1|end| => error words| => 2
stnu check --delay= => stnu 1|end| => error words| => 2
stnu check --delay => stnu 1|end| => error words| => 2
stnu check --delay 1 --delay 1 => stnu 1|end| => error words| => 2
stnu show --delay 0 => stnu 1|end| => error words| => 2
stnu forge 7 2 --delay 0 =>  => error words| => 2";

/// Rows: how many bytes a take gives at most, if that is above 0, which take and which put fails;
/// and then as above.
const FAILING_CALLS: &str = "0 2 0 => stnu judge => stnu 1|point A| => error read| => 5
1 4 0 => stnu judge => stnu 1|end|certificate 1|refutation|end| => error read| => 5
1 9 0 => stnu judge => point A|end| => error format 1 no-header| => 3
0 0 1 => stnu judge => stnu 1|end|certificate 1|refutation|end| =>  => 6
1 0 1 => stnu judge => point A|end| =>  => 6
1 4 1 => stnu judge => stnu 1|end| =>  => 6
0 1 1 => stnu chek => stnu 1|end| =>  => 6
1 4 0 => stnu run => stnu 1|point A|point B|bound b1 A B 5|bound b2 B A -2|end|at 0|at 2|done| => error read| => 5
0 0 2 => stnu run => stnu 1|point A|point B|bound b1 A B 5|bound b2 B A -2|end|at 0|at 2|done| => controllable|due 0| => 6
1 0 2 => stnu run => stnu 1|point A|point B|bound b1 A B 5|bound b2 B A -2|end|at 0|at 2|done| => controllable|due 0| => 6
0 1 0 => stnu session => stnu 1|point A|point C|point D|bound b1 D C 1|bound b2 C D -1|link A 3 8 C|end|verdict|drop bound b2|verdict|add bound b2 C D -1|proof|drop bound zz|end| => error read| => 5
1 79 0 => stnu session => stnu 1|point A|point C|point D|bound b1 D C 1|bound b2 C D -1|link A 3 8 C|end|verdict|drop bound b2|verdict|add bound b2 C D -1|proof|drop bound zz|end| => error read| => 5
1 80 0 => stnu session => stnu 1|point A|point C|point D|bound b1 D C 1|bound b2 C D -1|link A 3 8 C|end|verdict|drop bound b2|verdict|add bound b2 C D -1|proof|drop bound zz|end| => ready|error read| => 5
0 0 1 => stnu session => stnu 1|point A|point C|point D|bound b1 D C 1|bound b2 C D -1|link A 3 8 C|end|verdict|drop bound b2|verdict|add bound b2 C D -1|proof|drop bound zz|end| =>  => 6
0 0 3 => stnu session => stnu 1|point A|point C|point D|bound b1 D C 1|bound b2 C D -1|link A 3 8 C|end|verdict|drop bound b2|verdict|add bound b2 C D -1|proof|drop bound zz|end| => ready|not controllable| => 6
0 0 1 => stnu run => stnu 1|point A|point C|point D|bound b1 D C 4|link A 3 8 C|end|at 0|at 2 C| =>  => 6
0 0 2 => stnu run => stnu 1|point A|point C|point D|bound b1 D C 4|link A 3 8 C|end|at 0|at 2 C| => controllable|due 0| => 6
0 0 3 => stnu run => stnu 1|point A|point C|point D|bound b1 D C 4|link A 3 8 C|end|at 0|at 2 C| => controllable|due 0|act 0 A|due 4| => 6
0 0 4 => stnu run => stnu 1|point A|point C|point D|bound b1 D C 4|link A 3 8 C|end|at 0|at 2 C| => controllable|due 0|act 0 A|due 4|error event 9 too-soon C 3| => 7";

/// Rows: the capacity of a port of fixed capacity, how much of it is left after the run, whether
/// all bytes put are kept; and then as above. The capacity is ample, just enough, or too little:
/// the status is the same.
const CAPACITIES: &str =
    "1000 974 true => stnu judge => stnu 1|point A|point B|bound b1 A B 3|bound b2 B A -5|end|certificate 1|refutation|bound b1 A B 3|bound b2 B A -5|no 1 2 A A -2|walk 3|end| => accepted not controllable| => 0
26 0 true => stnu judge => stnu 1|point A|point B|bound b1 A B 3|bound b2 B A -5|end|certificate 1|refutation|bound b1 A B 3|bound b2 B A -5|no 1 2 A A -2|walk 3|end| => accepted not controllable| => 0
25 25 false => stnu judge => stnu 1|point A|point B|bound b1 A B 3|bound b2 B A -5|end|certificate 1|refutation|bound b1 A B 3|bound b2 B A -5|no 1 2 A A -2|walk 3|end| =>  => 0
0 0 false => stnu judge => stnu 1|end|certificate 1|refutation|end| =>  => 1
1000 842 true => stnu check => stnu 1|point A|point C|point D|bound b1 D C 1|bound b2 C D -1|link A 3 8 C|end| => not controllable|certificate 1|refutation|bound b1 D C 1|bound b2 C D -1|link C C A -8|up 1 3 D A C -7|low C 2 A D 2|up 5 4 A A C -5|drop 6 A A -3|walk 7|end| => 1
1000 941 true => stnu run => stnu 1|point A|point C|point D|bound b1 D C 4|link A 3 8 C|end|at 0|at 3 C|done| => controllable|due 0|act 0 A|due 4|act 3 D|due none|complete| => 0
1000 932 true => stnu run => stnu 1|point A|point C|point D|bound b1 D C 4|link A 3 8 C|end|at 0|at 4|at 8 C|done| => controllable|due 0|act 0 A|due 4|act 4 D|due none|due none|complete| => 0
19 0 false => stnu run => stnu 1|point A|point C|point D|bound b1 D C 4|link A 3 8 C|end|at 0|at 3 C|done| => controllable|due 0| => 0";

/// How a port gives its bytes: so many of a take at most, if that is above 0, and which take and
/// which put fails.
#[derive(Clone, Copy)]
pub(crate) struct Calls {
    pub(crate) cut: u32,
    pub(crate) failing_take: u32,
    pub(crate) failing_put: u32,
}

/// The capacity of a port when it is made and after the run, and whether it keeps all bytes put.
#[derive(Clone, Copy)]
struct PortCapacity {
    given: u32,
    left: u32,
    whole: bool,
}

/// A row: the words, the input, what is put, and the exit status.
#[derive(Clone, Copy)]
pub(crate) struct RunRow<'a> {
    pub(crate) words: &'a str,
    pub(crate) input: &'a str,
    pub(crate) put: &'a str,
    pub(crate) status: u8,
}

pub(crate) fn row_of(text: &str) -> Option<RunRow<'_>> {
    let (words, others) = text.split_once(" => ")?;
    let (input, others) = others.split_once(" => ")?;
    let (put, status) = others.split_once(" => ")?;
    Some(RunRow {
        words,
        input,
        put,
        status: status.parse().ok()?,
    })
}

fn calls_of(text: &str) -> Option<Calls> {
    let (cut, others) = text.split_once(' ')?;
    let (take, put) = others.split_once(' ')?;
    Some(Calls {
        cut: cut.parse().ok()?,
        failing_take: take.parse().ok()?,
        failing_put: put.parse().ok()?,
    })
}

fn capacity_of(text: &str) -> Option<PortCapacity> {
    let (given, others) = text.split_once(' ')?;
    let (left, whole) = others.split_once(' ')?;
    Some(PortCapacity {
        given: given.parse().ok()?,
        left: left.parse().ok()?,
        whole: whole == "true",
    })
}

/// The bytes of a text, with line ends.
fn with_line_ends(alloc: Global, text: &str) -> Result<Vec<u8>, AllocError> {
    text.bytes()
        .map(|byte| if byte == b'|' { b'\n' } else { byte })
        .collect(alloc)
}

fn words_of(alloc: Global, text: &str) -> Result<Vec<String>, AllocError> {
    let mut words = Vec::new(alloc);
    for word in text.split(' ') {
        words.push(String::from_str(alloc, word)?)?;
    }
    Ok(words)
}

fn port_over(alloc: Global, input: &str, calls: Calls) -> Result<MemoryPort, AllocError> {
    let input = with_line_ends(alloc, input)?;
    let cuts = vec![in alloc; calls.cut; 1000]?;
    let failing_takes = vec![in alloc; calls.failing_take; 1]?;
    let failing_puts = vec![in alloc; calls.failing_put; 1]?;
    Ok(MemoryPort::new(alloc, input, cuts, failing_takes, failing_puts))
}

/// A run over the port ends with the status of the row.
fn expect_status<R: Abort + Threads + Sync, P: Port>(
    rt: &R,
    alloc: Global,
    row: RunRow<'_>,
    port: &mut P,
) -> Result<(), AllocError> {
    let words = words_of(alloc, row.words)?;
    let status = run(rt, alloc, &words, port);
    assert_eq!(rt; status.0, row.status);
    Ok(())
}

/// These bytes are what the row says is put.
fn expect_put<R: Abort>(
    rt: &R,
    alloc: Global,
    row: RunRow<'_>,
    written: &[u8],
) -> Result<(), AllocError> {
    let put = with_line_ends(alloc, row.put)?;
    assert_eq!(rt; written, put.as_slice());
    Ok(())
}

fn expect_run<R: Abort + Threads + Sync>(
    rt: &R,
    alloc: Global,
    row: RunRow<'_>,
    port: &mut MemoryPort,
) -> Result<(), AllocError> {
    expect_status(rt, alloc, row, port)?;
    expect_put(rt, alloc, row, port.written())
}

/// The same over a port of fixed capacity, of which this much is then left.
fn expect_steady_run<R: Abort + Threads + Sync>(
    rt: &R,
    alloc: Global,
    row: RunRow<'_>,
    room: PortCapacity,
    port: &mut SteadyPort,
) -> Result<(), AllocError> {
    assert_eq!(rt; port.room(), room.given);
    expect_status(rt, alloc, row, port)?;
    assert_eq!(rt; (port.room(), port.whole()), (room.left, room.whole));
    expect_put(rt, alloc, row, port.written())
}

/// A run of the row over a port that gives its bytes so.
pub(crate) fn try_calls<R: Abort + Threads + Sync>(
    rt: &R,
    alloc: Global,
    row: RunRow<'_>,
    calls: Calls,
) -> Result<(), AllocError> {
    let mut port = port_over(alloc, row.input, calls)?;
    expect_run(rt, alloc, row, &mut port)
}

pub(crate) fn try_row<R: Abort + Threads + Sync>(
    rt: &R,
    alloc: Global,
    text: &str,
    calls: Option<Calls>,
) -> Result<(), AllocError> {
    if let (Some(row), Some(calls)) = (row_of(text), calls) {
        try_calls(rt, alloc, row, calls)
    } else {
        assert!(rt; false, "{text}");
        Ok(())
    }
}

fn try_capacity<R: Abort + Threads + Sync>(
    rt: &R,
    alloc: Global,
    text: &str,
    room: Option<PortCapacity>,
) -> Result<(), AllocError> {
    if let (Some(row), Some(room)) = (row_of(text), room) {
        let input = with_line_ends(alloc, row.input)?;
        let mut port = SteadyPort::new(alloc, input, room.given)?;
        expect_steady_run(rt, alloc, row, room, &mut port)
    } else {
        assert!(rt; false, "{text}");
        Ok(())
    }
}

#[test]
fn runs_are_the_same_however_the_input_is_cut(rt: HostRuntime) -> Result<(), Fail> {
    for text in RUNS.split('\n') {
        for cut in [0, 1] {
            let calls = Calls {
                cut,
                failing_take: 0,
                failing_put: 0,
            };
            try_row(&rt, rt.alloc(), text, Some(calls))?;
        }
    }
    Ok(())
}

#[test]
fn failed_calls_are_reported(rt: HostRuntime) -> Result<(), Fail> {
    for text in FAILING_CALLS.split('\n') {
        let (calls, row) = text.split_once(" => ").unwrap_or(("", ""));
        try_row(&rt, rt.alloc(), row, calls_of(calls))?;
    }
    Ok(())
}

#[test]
fn runs_are_the_same_over_a_fixed_capacity(rt: HostRuntime) -> Result<(), Fail> {
    for text in CAPACITIES.split('\n') {
        let (room, row) = text.split_once(" => ").unwrap_or(("", ""));
        try_capacity(&rt, rt.alloc(), row, capacity_of(room))?;
    }
    Ok(())
}
