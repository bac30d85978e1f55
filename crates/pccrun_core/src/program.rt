//! The whole program, but for its streams.
ghost use Rattle.std.specs.Prelude.{◌≡◌, ◌<◌, ◌≤◌, List, ℕ};
ghost use Rattle.std.specs.Io.KnownBytes.{Appends, Keeps};
ghost use Rattle.pcc_causes.specs.Causes.{AppendsPrefix, Rose};
ghost use Rattle.pccrun_core.specs.Answers.{Answers};
ghost use Rattle.pccrun_core.specs.Headlined.{Headlined};

use crate::top::run;
use pcc_io::{Sink, Source};
use std::{env, io};

/// The exit status where memory runs out.
const NO_MEMORY: u8 = 6;

/// Does what the program's arguments ask for. Its exit status. The clauses are those of `run` for some words: no clause can say that they are the
/// arguments.
pub fn run_program<S: Source, W: Sink>(rt: &HostRuntime, source: &mut S, sink: &mut W) -> u8
    ensures known { result ≤ 6 }
    ensures written { result < 4 → (words : List (List ℕ)) × (text : List ℕ)
        × Answers words (S.left source.old) (S.left source.new) result text × Appends (W.held sink.old) (W.held sink.new) text }
    ensures headline { result ≡ 0 → (words : List (List ℕ))
        × Headlined words (S.left source.old) (S.left source.new) (W.held sink.old) (W.held sink.new) }
    ensures read_fault { result ≡ 4 → Rose (S.faults source.old) (S.faults source.new) × Keeps (W.held sink.old) (W.held sink.new) }
    ensures write_fault { result ≡ 5 → Rose (W.faults sink.old) (W.faults sink.new) × ((words : List (List ℕ)) × (status : ℕ) × (text : List ℕ)
        × Answers words (S.left source.old) (S.left source.new) status text × AppendsPrefix (W.held sink.old) (W.held sink.new) text) }
    ensures memory { result ≡ 6 → Keeps (W.held sink.old) (W.held sink.new) }
{
    let mut words: Vec<String> = Vec::new(rt.alloc());
    match env::args(rt) {
        Ok(args) => {
            for word in args.skip(1) {
                if words.push(word).is_err() {
                    return NO_MEMORY;
                }
            }
        }
        Err(error) => {
            if error.kind() == io::ErrorKind::OutOfMemory {
                return NO_MEMORY;
            }
            // Arguments that aren't text ask for nothing, as no words do.
        }
    }
    run(rt.alloc(), &words, source, sink).status
}
