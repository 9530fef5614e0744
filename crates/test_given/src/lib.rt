//! What rows of calls give to a program, and what comes out of them: all of it that needs no call of the program, so that it isn't
//! proved again with each change of one.
//!
//! A row is `KIND | GIVEN | WANTED`, and most are `KIND | WORDS / SETTINGS | ANSWER / TEXT`:
//!
//! - `call` and `sure`: a call with these words; its status, and what the sink then holds, where `USAGE` is the usage line.
//! - `crossed`: a call as in `call`, in which the one station and the replay wait for each other by turns.
//! - `pieces`: a call as in `call`; its status, and what the sink holds begins with the first of the pieces of `TEXT`, with ` .. `
//!   between them, ends with the last, and has the others between these in their order.
//! - `read` and `read-sure`: reads of files of these names, and their answers: a number of bytes or a fault.
//! - `read-host`: the same where the system has the files, and the bytes that were read.
//! - `put`: puts of these pieces, their answers, and what the sink then holds.
//! - `read-slow`, `write-slow` and `put-slow`: over a reader or writer that gives and takes at most two bytes at once, and is
//!   interrupted at each second call, all of its bytes are read, a text is written, and pieces are put and then the sink
//!   finished; the answers, and the bytes.
//!
//! Each word that is the name of a text is the name of a file with this text. A setting `NAME=CONTENTS` gives another file, whose
//! contents are a text's name, `*N` for N blanks, or the bytes themselves. `read=N` fails the Nth read, `put=N:KEPT` the Nth put,
//! of which KEPT bytes are kept, and `call=N` the Nth call of a slow reader or writer. In what the sink holds `\n` is a line feed;
//! `-` is nothing, and the name of a text is that text. `sure` and the kinds with `-sure` go over files and a sink that never fail.
//!
//! - `check | KEYS = VALUES | ANSWER`: the answer of `check` to a small project, in which the field of each key has its value, or
//!   is left out if the value is `-`; between values is ` ~ `. With the key `file` the value is the whole text. `N*TEXT`
//!   inside braces, as in `{{3*1,}}`, is the text N times. VALUES may be the name of a text. A refusal is given without its first
//!   word.
//! - `cuts | TEXT | ANSWER`: the answer of `check` to each shorter beginning of a text.
//! - `migrate | TEXT | ANSWER`: the answer of `migrate`, likewise.
//!
//! The files of the other kinds lie in folders of `data`:
//!
//! - `files | FOLDER WORDS | STATUS / FILE`: with these words, of which all but the first are files of the folder, the program
//!   ends with this status, and writes what the folder's file has.
//! - `again | FOLDER WORDS | right`: likewise of words of a run: the program writes a journal, and then the report that its replay
//!   of that journal gives.
//! - `lanes-KIND | PROJECT SCRIPT NUMBERS | right`: runs of a script whose lanes run on threads, with files of the folder `lanes`.
//!   Of each run it is asked that its journal is complete for the script, counted apart from the program, that no action was
//!   answered `held`, and that a replay of the journal gives its report:
//!   - `lanes-run`: a run with a gate that holds nobody.
//!   - `lanes-pair`, `A B`: a run in which each of the two lanes waits before its second action until the other was asked for its.
//!   - `lanes-pairs`, `N`: such runs for each pair of the first N lanes.
//!   - `lanes-cut`: runs into a sink that fails at its first put, at its second, and so on.
//!   - `lanes-lines`: no run: the script cut after each of its lines is refused at the next one.
//!   - `lanes-made`, `N`: N runs of made scripts, under gates that hold lanes at random; SCRIPT has their actions, a line each.
//!   - `lanes-full`, `N`: a run of a script of 31 lanes with N actions, without the replay; SCRIPT has its first line.
#![tactic(auto)]

mod calls;
mod case;
mod complete;
mod crossed;
mod edge;
mod fields;
mod folders;
mod gates;
mod lanes;
mod made;
mod program;
mod projects;
mod rows;
mod slow;

pub use gates::Hold;
pub use program::Program;
pub use rows::judge;
