//! The top call of every command that needs no threads.
ghost use Rattle.std.specs.Prelude.{◌≡◌, ◌≢◌, ◌≤◌, ◌<◌, List, ℕ, if◌then◌else◌, IfOk, IfErr, IsErrOf, MatchResult, length, map};
ghost use Rattle.std.specs.String.{string_bytes};
ghost use Rattle.std.specs.Io.KnownBytes.{Appends, Keeps};
ghost use Rattle.pcc_causes.specs.Causes.{AppendsPrefix, Rose};
ghost use Rattle.pccrun_core.specs.Answers.{Answers, AsksFor, AsksToMake, IsDone, IsServedInput, Makes, Yields, input_limit};
ghost use Rattle.pcc_setup.specs.RefusalText.{HasLine, refused_line};
ghost use Rattle.pcc_setup.specs.declared.refusal.Refusal.{Refusal};
ghost use Rattle.pccrun_core.specs.CommandErrors.{IsRefusedBy};
ghost use Rattle.pccrun_core.specs.Headlined.{Headlined};
ghost use Rattle.pccrun_core.specs.Inputs.{IsRefusedInput};
ghost use Rattle.pccrun_core.specs.Refusals.{Refuses};
ghost use Rattle.pccrun_core.specs.Statuses.{code_of};
ghost use Rattle.pccrun_core.specs.declared.command.Command.{Command};
ghost use Rattle.pccrun_core.specs.declared.top.Stop.TheVariants.{NoMemory as OutOfMemory};

use crate::audit::audited;
use crate::command::{Command, Request, request_of, usage};
use crate::error::CommandError;
use crate::package::{cpc, raise};
use crate::step::step;
use crate::tables::{build, show};
use crate::weave::weave;
use pcc_io::{Bytes, NoMemory, ReadEnd, Sink, Source, WriteFault, read_to_end, write_whole};
use pcc_setup::{InputError, Refusal, SetUpError, refused_line, set_up_laws};
use script_run::made_summary;
use std::alloc::Global;

/// How many bytes of input are read at most.
const INPUT_LIMIT: usize = 4_194_304;

/// How the program ended.
#[derive(Clone, Copy, Debug, PartialEq, Eq)]
pub struct Finished {
    /// The exit status: 0 the command's text was written, 1 the flaw that `audit` tells, 2 the usage line, 3 the line of a refused input; 4 the
    /// source failed, 5 the sink failed, 6 memory ran out.
    pub status: u8,
}

/// What ends the program, by its exit status.
#[derive(Clone, Copy, Debug, PartialEq, Eq)]
enum Status {
    Done = 0,
    Flawed = 1,
    Usage = 2,
    Refused = 3,
    ReadFault = 4,
    WriteFault = 5,
    NoMemory = 6,
}

// A text that is to be written, and the status after it.
#[derive(Drop)]
struct Answer {
    status: Status,
    text: Bytes,
}

// Why there is nothing to write.
#[derive(Clone, Copy)]
enum Stop {
    ReadFault,
    NoMemory,
}

impl From<NoMemory> for Stop {
    ghost from_gives = { λ _ e. e ≡ OutOfMemory };

    fn from(_: NoMemory) -> Stop {
        Stop::NoMemory
    }
}

fn copy_of(alloc: Global, text: &[u8]) -> Result<Bytes, NoMemory>
    ensures { IfOk result (λ v. v ≡ text.now) }
{
    Ok(Bytes::from_vec(Vec::from_slice(alloc, text)?))
}

// What a command makes of its whole input is written with status 0.
fn done(text: Result<Vec<u8>, CommandError>) -> Result<Answer, CommandError>
    ensures { (c : Command) (input : List ℕ) → MatchResult text (λ v. Makes c input v.items) (IsRefusedBy (Refuses c input))
        → MatchResult result (λ a. Yields c input (code_of a.status) a.text) (IsRefusedBy (Refuses c input)) }
{
    match text {
        Ok(text) => Ok(Answer {
            status: Status::Done,
            text: Bytes::from_vec(text),
        }),
        Err(error) => Err(error),
    }
}

// The status after what `audit` writes.
fn audit_status(flawed: bool) -> Status
    ensures { code_of result ≡ if flawed then 1 else 0 }
{
    if flawed { Status::Flawed } else { Status::Done }
}

// What `audit` writes of its whole input.
#[tactic(auto, using(crate::proofs::Tops::judged))]
fn judged(alloc: Global, input: &[u8]) -> Result<Answer, CommandError>
    requires { length input.now ≤ input_limit }
    ensures { MatchResult result (λ a. Yields Command.Audit input.now (code_of a.status) a.text) (IsRefusedBy (Refuses Command.Audit input.now)) }
{
    match audited(alloc, input) {
        Ok(audited) => Ok(Answer {
            status: audit_status(audited.flawed),
            text: audited.text,
        }),
        Err(error) => Err(error),
    }
}

// What a command writes of its whole input.
fn made(alloc: Global, command: Command, input: &[u8]) -> Result<Answer, CommandError>
    requires { length input.now ≤ input_limit }
    ensures { MatchResult result (λ a. Yields command input.now (code_of a.status) a.text) (IsRefusedBy (Refuses command input.now)) }
{
    match command {
        Command::Step => done(step(alloc, input)),
        Command::Weave => done(weave(alloc, input)),
        Command::Show => done(show(alloc, input)),
        Command::Build => done(build(alloc, input)),
        Command::Cpc => done(cpc(alloc, input)),
        Command::Raise => done(raise(alloc, input)),
        Command::Audit => judged(alloc, input),
    }
}

// What the words and the bytes of the source lead to.
#[tactic(auto, using(crate::proofs::Tops::answers))]
fn answer_to<S: Source>(alloc: Global, words: &[String], source: &mut S) -> Result<Answer, Stop>
    ensures answer { IfOk result (λ a. Answers (map (λ w. string_bytes w) words.now) (S.left source.old) (S.left source.new) (code_of a.status) a.text) }
    ensures read_fault { IsErrOf result Stop.ReadFault → ((c : Command) × AsksFor (map (λ w. string_bytes w) words.now) c)
        × Rose (S.faults source.old) (S.faults source.new) }
    ensures unasked { ((c : Command) → AsksFor (map (λ w. string_bytes w) words.now) c → ⊥) → source.new ≡ source.old }
{
    let command = match request_of(words) {
        Some(Request::Run(command)) => command,
        Some(Request::Make { calls }) => {
            let text = made_summary(alloc, calls)?;
            return Ok(Answer {
                status: Status::Done,
                text: Bytes::from_vec(text),
            });
        }
        None => {
            let text = copy_of(alloc, usage())?;
            return Ok(Answer {
                status: Status::Usage,
                text,
            });
        }
    };
    let bytes = match read_to_end(alloc, source, INPUT_LIMIT) {
        Ok(bytes) => bytes,
        Err(ReadEnd::ReadFault) => return Err(Stop::ReadFault),
        Err(ReadEnd::NoMemory) => return Err(Stop::NoMemory),
        Err(ReadEnd::TooLong { .. }) => return refused(alloc, Refusal::Long),
    };
    match made(alloc, command, &bytes) {
        Ok(answer) => Ok(answer),
        Err(CommandError::Input(InputError::Refused(refusal))) => refused(alloc, refusal),
        Err(CommandError::SetUp(SetUpError::Refused { text })) => Ok(Answer {
            status: Status::Refused,
            text,
        }),
        Err(CommandError::Input(InputError::NoMemory)) => Err(Stop::NoMemory),
        Err(CommandError::SetUp(SetUpError::NoMemory)) => Err(Stop::NoMemory),
    }
}

fn refused(alloc: Global, refusal: Refusal) -> Result<Answer, Stop>
    requires { HasLine refusal }
    ensures line { IfOk result (λ a. (a.status ≡ Status.Refused) × (a.text ≡ refused_line refusal)) }
    ensures memory { IfErr result (λ e. e ≡ Stop.NoMemory) }
{
    let text = refused_line(alloc, refusal)?;
    Ok(Answer {
        status: Status::Refused,
        text: Bytes::from_vec(text),
    })
}

/// Does all that the program does for a command without threads: tests the words, reads the source to its end where they ask for a command on
/// the input, runs what they ask for, and writes its whole text. It always returns. Each input is made or refused, never both, and refused by one line:
/// `input_laws` and `answer_laws` say it of the definitions that the clauses cite.
#[tactic(auto, using(crate::proofs::Tops::runs, crate::proofs::Headlined::headlined))]
pub fn run<S: Source, W: Sink>(
    alloc: Global,
    words: &[String],
    source: &mut S,
    sink: &mut W,
) -> Finished
    ensures known { result.status ≤ 6 }

    // The text that the words and the bytes lead to was written whole.
    ensures written { result.status < 4 → (text : List ℕ)
        × Answers (map (λ w. string_bytes w) words.now) (S.left source.old) (S.left source.new) result.status text
        × Appends (W.held sink.old) (W.held sink.new) text }

    // Of `step`, of `weave` and of `make`: each journal of the run whose text was written keeps its headline. Of `step`: the journals of controllers
    // keep the ranges of their processors.
    ensures headline { result.status ≡ 0
        → Headlined (map (λ w. string_bytes w) words.now) (S.left source.old) (S.left source.new) (W.held sink.old) (W.held sink.new) }

    // Only the source can make it 4, where it is read, and nothing is written then.
    ensures read_fault { result.status ≡ 4 → ((c : Command) × AsksFor (map (λ w. string_bytes w) words.now) c)
        × Rose (S.faults source.old) (S.faults source.new) × Keeps (W.held sink.old) (W.held sink.new) }

    // Only the sink can make it 5, and a prefix of that text was written then.
    ensures write_fault { result.status ≡ 5 → Rose (W.faults sink.old) (W.faults sink.new) × ((status : ℕ) × (text : List ℕ)
        × Answers (map (λ w. string_bytes w) words.now) (S.left source.old) (S.left source.new) status text
        × AppendsPrefix (W.held sink.old) (W.held sink.new) text) }
    ensures memory { result.status ≡ 6 → Keeps (W.held sink.old) (W.held sink.new) }

    // A served input is run, where neither source nor sink fails and memory doesn't run out. Of `audit` the status is 0 or 1 then.
    ensures complete { (h : IsServedInput (map (λ w. string_bytes w) words.now) (S.left source.old))
        → (Rose (S.faults source.old) (S.faults source.new) → ⊥) → (Rose (W.faults sink.old) (W.faults sink.new) → ⊥)
        → result.status ≢ 6 → IsDone h.command result.status }

    // A refused input is refused, where neither source nor sink fails and memory doesn't run out.
    ensures refused { (cause : Refusal) → IsRefusedInput (map (λ w. string_bytes w) words.now) (S.left source.old) cause
        → (Rose (S.faults source.old) (S.faults source.new) → ⊥) → (Rose (W.faults sink.old) (W.faults sink.new) → ⊥)
        → result.status ≢ 6 → result.status ≡ 3 }

    // A made-up script is always run, where the sink doesn't fail and memory doesn't run out.
    ensures made { (n : ℕ) → AsksToMake (map (λ w. string_bytes w) words.now) n → (Rose (W.faults sink.old) (W.faults sink.new) → ⊥)
        → result.status ≢ 6 → result.status ≡ 0 }

    // Words that ask for no command on the input leave the source as it was.
    ensures unasked { ((c : Command) → AsksFor (map (λ w. string_bytes w) words.now) c → ⊥) → source.new ≡ source.old }
{
    set_up_laws();
    let answer = match answer_to(alloc, words, source) {
        Ok(answer) => answer,
        Err(Stop::ReadFault) => return ended(Status::ReadFault),
        Err(Stop::NoMemory) => return ended(Status::NoMemory),
    };
    match write_whole(sink, answer.text.as_slice()) {
        Ok(()) => ended(answer.status),
        Err(WriteFault) => ended(Status::WriteFault),
    }
}

fn ended(status: Status) -> Finished
    ensures { result ≡ record { status = code_of status } }
{
    Finished {
        status: status as u8,
    }
}
