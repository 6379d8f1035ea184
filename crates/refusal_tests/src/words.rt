//! Words that are refused, before any file is opened.

/// What runs have beside their words.
pub const BESIDE_WORDS: &str = "\
status 2
prints usage: megaswitch [--workers N] [--steps FILE] [--flow-limit N] [--netflow] [--mirrors FILE] EDITS OUT \
    PORT=FILE...
opened";

/// Words after the program's name.
pub const WORDS_REFUSED: &str = "\
shows no words
words

shows no port
words edits out

shows a port that stands twice
words edits out 1=a.pcap 1=

shows 17 workers
words --workers 17 edits out 1=

shows room for no megaflow
words --flow-limit 0 edits out 1=

shows steps for workers
words --workers 1 --steps steps edits out 1=

shows steps without a name
words --steps= edits out 1=

shows files beside what a number makes
words --generate 7 edits

shows steps for what a number makes
words --generate 7 --steps=steps

shows a number with a leading zero
words --generate 07

shows mirrors without a name
words --mirrors= edits out 1=

shows flows with a value
words --netflow=x edits out 1=

shows flows that are asked for twice
words --netflow edits out 1= --netflow

shows flows of what a number makes
words --generate 7 --netflow";
