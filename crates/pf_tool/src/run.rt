// A run of the program.
ghost use Rattle.std.specs.Prelude.{◌≡◌};
ghost use Rattle.pf_tool.specs.Requests.{Request, texts, AskFor, AskForNothing, request_of};
ghost use Rattle.pf_tool.specs.World.{world_of};
ghost use Rattle.pf_tool.specs.Outcomes.{Concludes, SaysScript};
ghost use Rattle.pf_tool.specs.Runs.{Runs, Usage, Causes, ByWords, Content, Decided, Honest, OneOver, OnDisks, Stays};

use crate::decrypt::decrypt;
use crate::encrypt::encrypt;
use crate::fault::Fault;
use crate::manifest::write_manifest;
use crate::measuring::measure_layout;
use crate::script::run_script;
use crate::sums::write_sums;
use crate::words::{Command, command_of};
use pf_io::{Host, Sink, Source, Words};
use std::alloc::Global;

// Says how a command ended, and answers the status.
fn conclude<L: Sink>(ended: Result<(), Fault<'_>>, log: &mut L) -> u8
    ensures { Concludes ended.entry (L.state log.old) (L.state log.new) result }
{
    match ended {
        Ok(()) => 0,
        Err(fault) => fault.report(log),
    }
}

// So of a session, which has a status.
fn conclude_script<L: Sink>(ended: Result<u8, Fault<'_>>, log: &mut L) -> u8
    ensures { SaysScript ended.entry (L.state log.old) (L.state log.new) result }
{
    match ended {
        Ok(status) => status,
        Err(fault) => fault.report(log),
    }
}

// Runs a command, and says how it ended.
fn run_command<H: Host, S: Source, K: Sink, L: Sink, R: Words>(
    alloc: Global,
    command: &Command<'_>,
    host: &mut H,
    input: &mut S,
    out: &mut K,
    log: &mut L,
    random: &mut R,
) -> u8
    ensures { Runs (request_of command.now) (world_of (H.state host.old) (S.state input.old) (K.state out.old) (L.state log.old) (R.state random.old))
        (world_of (H.state host.new) (S.state input.new) (K.state out.new) (L.state log.new) (R.state random.new)) result }
{
    match command {
        Command::Decrypt(command) => conclude(decrypt(alloc, host, command, out), log),
        Command::Encrypt(command) => conclude(encrypt(alloc, host, random, command), log),
        Command::Session(command) => {
            conclude_script(run_script(alloc, host, input, out, random, command), log)
        }
        Command::Manifest(command) => conclude(write_manifest(alloc, host, command, out), log),
        Command::Sums(command) => conclude(write_sums(alloc, host, command, out), log),
        Command::Measure(command) => conclude(measure_layout(alloc, host, command, out), log),
    }
}

/// Runs the program on the words after its name, and answers the status that it ends with: 0 done, 1 damaged, 2 no
/// command, 3 refused, 4 a fault of the host, 5 want of memory, 6 a fault of the random words, 7 a fault of a stream.
pub fn run<H: Host, S: Source, K: Sink, L: Sink, R: Words>(
    alloc: Global,
    words: &[String],
    host: &mut H,
    input: &mut S,
    out: &mut K,
    log: &mut L,
    random: &mut R,
) -> u8
    // Words that are no command are named so, and nothing else is done. Status 2 says this alone.
    ensures usage { AskForNothing (texts words.now) → Usage (world_of (H.state host.old) (S.state input.old) (K.state out.old) (L.state log.old) (R.state random.old)) (world_of (H.state host.new) (S.state input.new) (K.state out.new) (L.state log.new) (R.state random.new)) result }
    ensures only_usage { result ≡ 2 → AskForNothing (texts words.now) }

    // A command comes to an ending by the answers of the host and the random words, or a call failed, or there was no memory:
    // then what had happened is a front of a run that comes to an ending.
    ensures runs { (request : Request) → AskFor (texts words.now) request → Runs request (world_of (H.state host.old) (S.state input.old) (K.state out.old) (L.state log.old) (R.state random.old)) (world_of (H.state host.new) (S.state input.new) (K.state out.new) (L.state log.new) (R.state random.new)) result }

    // Statuses 4, 6 and 7 come only where a count of faults rose. At 0 none did, and of a command with one ending none at 5 and at most 3.
    ensures causes { (request : Request) → AskFor (texts words.now) request → Causes request (world_of (H.state host.old) (S.state input.old) (K.state out.old) (L.state log.old) (R.state random.old)) (world_of (H.state host.new) (S.state input.new) (K.state out.new) (L.state log.new) (R.state random.new)) result }

    // Where the words alone are refused, nothing is asked.
    ensures by_words { (request : Request) → AskFor (texts words.now) request → ByWords request (world_of (H.state host.old) (S.state input.old) (K.state out.old) (L.state log.old) (R.state random.old)) (world_of (H.state host.new) (S.state input.new) (K.state out.new) (L.state log.new) (R.state random.new)) result }

    // What is put out is of one sealed version where nothing given is forged, and what is sealed has the bytes given.
    ensures content { (request : Request) → AskFor (texts words.now) request → Content request (world_of (H.state host.old) (S.state input.old) (K.state out.old) (L.state log.old) (R.state random.old)) (world_of (H.state host.new) (S.state input.new) (K.state out.new) (L.state log.new) (R.state random.new)) result }

    // Where the host tells its answers, the ending that they lead to is the one reported.
    ensures decided { (request : Request) → AskFor (texts words.now) request → Decided request (world_of (H.state host.old) (S.state input.old) (K.state out.old) (L.state log.old) (R.state random.old)) (world_of (H.state host.new) (S.state input.new) (K.state out.new) (L.state log.new) (R.state random.new)) result }

    // Over an honest host, where nothing fails, what comes is what its files give, and they give one ending.
    ensures honest { (request : Request) → AskFor (texts words.now) request → Honest request (world_of (H.state host.old) (S.state input.old) (K.state out.old) (L.state log.old) (R.state random.old)) (world_of (H.state host.new) (S.state input.new) (K.state out.new) (L.state log.new) (R.state random.new)) result }
    ensures one_ending { OneOver }

    // On an honest disk, whatever fails: what a crash at any moment leaves, and what stands in the end.
    ensures disk { (request : Request) → AskFor (texts words.now) request → OnDisks request (world_of (H.state host.old) (S.state input.old) (K.state out.old) (L.state log.old) (R.state random.old)) (world_of (H.state host.new) (S.state input.new) (K.state out.new) (L.state log.new) (R.state random.new)) result }

    // What stays.
    ensures stays { (request : Request) → AskFor (texts words.now) request → Stays request (world_of (H.state host.old) (S.state input.old) (K.state out.old) (L.state log.old) (R.state random.old)) (world_of (H.state host.new) (S.state input.new) (K.state out.new) (L.state log.new) (R.state random.new)) }
{
    match command_of(words) {
        Some(command) => run_command(alloc, &command, host, input, out, log, random),
        None => Fault::NoCommand.report(log),
    }
}
