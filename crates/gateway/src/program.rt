//! The whole program over an input, an output and an error stream that the caller passes in. `serve_words` runs the
//! mode that the words name, appends its text to the output, and returns the status. A stop is one line on the error
//! stream, followed by the usage after a wrong use. The modes: run a bundle, replay a journal or a state directory, run
//! feeds in files, follow feeds, print the told lines of a state directory, check an inventory, explain lines, help and
//! version.
ghost use Rattle.std.specs.Prelude.{◌≡◌, ℕ, List, Option, IfOk, IfErr, IfSome, map};
ghost use Rattle.std.specs.Io.KnownBytes.{Appends, Keeps};
ghost use Rattle.cmd_answer.specs.declared.stop.FilesStop.TheVariants.{Other};
ghost use Rattle.cmd_answer.specs.declared.stop.Stop.TheVariants.{Output};
ghost use Rattle.cmd_answer.specs.declared.ended.Ended.{Ended};
ghost use Rattle.gateway.specs.Answers.{Answers};
ghost use Rattle.cmd_answer.specs.Stops.{OverStreams, StopsBundle};
ghost use Rattle.cmd_answer.specs.Written.{AppendsPart};
ghost use Rattle.gateway.specs.Modes.{HasNoCall, Serves, ServesCall, ServesFiles, ServesInput, ServesProgram, ServesWords, streams};
ghost use Rattle.cmd_words.specs.Words.{HasRanges, mode_named};

use crate::bundle::answer;
use crate::check::serve_check;
use crate::explain::explain_words;
use crate::files::answer_files;
use crate::follow::serve_follow;
use crate::help::serve_text;
use crate::keeping::serve_kept;
use crate::state_replay::serve_state_replay;
use crate::told::serve_told;
use cmd_answer::{Ended, FilesStop, Stop, misused, put, read_all, serve_replay, stopped};
use cmd_live::{Call, System};
use cmd_options::{FilesCall, FollowCall, MOST_READS, Mode, Options};
use cmd_words::{
    ModeName, VERSION_TEXT, WordsFault, checked_of, files_of, follow_of, mode_named, mode_of,
    state_to_replay_of, text_to_explain, told_of, usage_of,
};
use std::alloc::Global;
use std::io::{Read, Write};
use std::marker::Send;
use std::rt::Files;
use std::sync::Wait;
use std::thread::Threads;

/// Ends a call whose words are not valid for this mode: appends the line of a wrong use and the usage of the mode, or
/// of all modes, to the error stream; or the line of the stop for out of memory.
fn without_call<E: Write>(fault: WordsFault, mode: Option<ModeName>, errors: &mut E) -> Ended
    ensures { (output : Option (List ℕ)) → HasNoCall mode result (streams output output (E.contents errors.old) (E.contents errors.new)) }
{
    match fault {
        WordsFault::Usage => misused(usage_of(mode), errors),
        WordsFault::Memory => stopped(FilesStop::Other(Stop::Memory), errors),
    }
}

/// Reads a bundle to its end, runs its feeds, and appends the text to the output. Returns the status. After an error
/// the output is unchanged, but a failed output may have a prefix of the text.
fn serve_bundle<R: Threads + Wait + Sync, I: Read, O: Write>(
    rt: &R,
    alloc: Global,
    options: Options,
    input: &mut I,
    output: &mut O,
) -> Result<u8, Stop>
    requires { options.run.reads ≡ MOST_READS }
    ensures answers { IfOk result (λ status. IfSome (I.remaining input.old) (λ bytes. (text : List ℕ) × Answers options bytes text status × Appends (O.contents output.old) (O.contents output.new) text)) }
    ensures stops { IfErr result (λ stop. IfSome (I.remaining input.old) (λ bytes. OverStreams (StopsBundle bytes) (Other stop))) }
    ensures nothing { IfErr result (λ stop. (stop ≡ Output → ⊥) → Keeps (O.contents output.old) (O.contents output.new)) }
    ensures part { IfErr result (λ stop. stop ≡ Output → IfSome (I.remaining input.old) (λ bytes. (text : List ℕ) × ((status : ℕ) × Answers options bytes text status) × AppendsPart (O.contents output.old) (O.contents output.new) text)) }
{
    let bytes = read_all(alloc, input, MOST_READS)?;
    let answered = answer(rt, alloc, options, &bytes)?;
    put(answered, output)
}

/// Runs `mode` and appends its text to `output`, or one line on the stop to `errors`. Only a failed `output` may get a
/// prefix of the text. The status is as for `serve_words`; `printed` says whether `errors` took its line.
fn serve_streams<R: AllocGlobal + Threads + Wait + Sync, I: Read, O: Write, E: Write>(
    rt: &R,
    mode: Mode,
    input: &mut I,
    output: &mut O,
    errors: &mut E,
) -> Ended
    requires { HasRanges mode }
    ensures { Serves mode (I.remaining input.old) result (streams (O.contents output.old) (O.contents output.new) (E.contents errors.old) (E.contents errors.new)) }
{
    let alloc = rt.alloc();
    match mode {
        Mode::Bundle(options) => match serve_bundle(rt, alloc, options, input, output) {
            Ok(status) => Ended {
                status,
                printed: true,
            },
            Err(stop) => stopped(FilesStop::Other(stop), errors),
        },
        Mode::Replay { limit } => match serve_replay(alloc, limit, input, output) {
            Ok(status) => Ended {
                status,
                printed: true,
            },
            Err(stop) => stopped(FilesStop::Other(stop), errors),
        },
    }
}

/// Runs feeds in files, and appends the text for the run to `output`, or one line on the stop to `errors`. Only a
/// failed `output` may get a prefix of the text.
fn serve_files<R: System + Sync, O: Write, E: Write>(
    rt: &R,
    alloc: Global,
    call: &FilesCall<'_>,
    output: &mut O,
    errors: &mut E,
) -> Ended
where
    R::File: Send,
    ensures { ServesFiles R.File.remaining call.now result (streams (O.contents output.old) (O.contents output.new) (E.contents errors.old) (E.contents errors.new)) }
{
    match answer_files(rt, alloc, call) {
        Ok(answered) => match put(answered, output) {
            Ok(status) => Ended {
                status,
                printed: true,
            },
            Err(stop) => stopped(FilesStop::Other(stop), errors),
        },
        Err(stop) => stopped(stop, errors),
    }
}

/// Follows feeds, and keeps each command in the state directory where the call names one. Returns the end of the call,
/// and the output with the printed lines appended.
fn serve_call<R: AllocGlobal + System + Sync, I: Read + Send, O: Write + Drop, E: Write>(
    rt: &R,
    asked: &FollowCall<'_>,
    input: &mut I,
    output: O,
    errors: &mut E,
) -> (Ended, O)
where
    R::File: Send,
    R::Dir: Send,
    R::Stream: Send,
    ensures { ServesCall asked.now.keeping.state R.File.remaining asked.now result.0 (streams (O.contents output) (O.contents result.1) (E.contents errors.old) (E.contents errors.new)) }
{
    let call = Call {
        rt,
        alloc: rt.alloc(),
        asked,
    };
    match asked.keeping.state {
        Some(path) => serve_kept(&call, path, input, output, errors),
        None => serve_follow(&call, input, output, errors),
    }
}

/// Runs a bundle, or replays a journal or a state directory. Appends the text to `output`, or the line of the stop to
/// `errors`. Returns the end of the call.
fn serve_input<R: AllocGlobal + System + Sync, I: Read, O: Write, E: Write>(
    rt: &R,
    words: &[&str],
    input: &mut I,
    output: &mut O,
    errors: &mut E,
) -> Ended
    ensures { ServesInput (mode_named (map (λ w. w.now) words.now)) (I.remaining input.old) result (streams (O.contents output.old) (O.contents output.new) (E.contents errors.old) (E.contents errors.new)) }
{
    let alloc = rt.alloc();
    match state_to_replay_of(alloc, words) {
        Ok(Some(path)) => return serve_state_replay(rt, alloc, path, output, errors),
        Ok(None) => {}
        Err(fault) => return without_call(fault, mode_named(words), errors),
    }
    match mode_of(alloc, words) {
        Ok(mode) => serve_streams(rt, mode, input, output, errors),
        Err(fault) => without_call(fault, mode_named(words), errors),
    }
}

/// Runs the mode that the words name, other than `explain`, over the streams of the caller. Returns the end of the
/// call, and the output with the text appended; a stop is one line on `errors`.
fn serve_modes<R: AllocGlobal + System + Sync, I: Read + Send, O: Write + Drop, E: Write>(
    rt: &R,
    words: &[&str],
    input: &mut I,
    mut output: O,
    errors: &mut E,
) -> (Ended, O)
where
    R::File: Send,
    R::Dir: Send,
    R::Stream: Send,
    ensures { ServesWords R.File.remaining (mode_named (map (λ w. w.now) words.now)) (I.remaining input.old) result.0 (streams (O.contents output) (O.contents result.1) (E.contents errors.old) (E.contents errors.new)) }
{
    let alloc = rt.alloc();
    let mode = mode_named(words);
    match mode {
        Some(ModeName::Files) => match files_of(alloc, words) {
            Ok(call) => (serve_files(rt, alloc, &call, &mut output, errors), output),
            Err(fault) => (without_call(fault, mode, errors), output),
        },
        Some(ModeName::Follow) => match follow_of(alloc, words) {
            Ok(call) => serve_call(rt, &call, input, output, errors),
            Err(fault) => (without_call(fault, mode, errors), output),
        },
        Some(ModeName::Check) => match checked_of(alloc, words) {
            Ok(path) => (serve_check(rt, alloc, path, &mut output, errors), output),
            Err(fault) => (without_call(fault, mode, errors), output),
        },
        Some(ModeName::Told) => match told_of(alloc, words) {
            Ok(call) => (serve_told(rt, alloc, call, &mut output, errors), output),
            Err(fault) => (without_call(fault, mode, errors), output),
        },
        Some(ModeName::Help) => (serve_text(usage_of(None), &mut output, errors), output),
        Some(ModeName::Version) => (serve_text(&[VERSION_TEXT], &mut output, errors), output),
        // Four arms with the same value: one joined arm would lose the facts that the proof needs about the mode.
        Some(ModeName::Bundle) => (serve_input(rt, words, input, &mut output, errors), output),
        Some(ModeName::Replay) => (serve_input(rt, words, input, &mut output, errors), output),
        Some(ModeName::Explain) => (serve_input(rt, words, input, &mut output, errors), output),
        None => (serve_input(rt, words, input, &mut output, errors), output),
    }
}

/// Runs the call that `words`, the words of the program after its name, ask for, over the streams of the caller.
/// Returns the end of the call, and the output with the text appended (profile).
///
/// The text of the mode is appended to the output and nothing else; or one line on the stop is appended to the error
/// stream, or a prefix of that line where `printed` in [`Ended`] is false. After a stop the output is unchanged, except
/// that a prefix of the text may be there where the output failed or feeds were followed. For a replay the text is the
/// report on the state that the journal leads to. For a bundle and for feeds in files it is the report, the lines on
/// the feeds and, where they are asked for, the figures and the journal. For each feed, the journal has exactly the
/// commands of the bytes that were read from the feed; the report and the figures are those of the journal. After a
/// fault of the run, the line of its cause comes instead of the report. For feeds that are followed the text is the
/// lines that are printed as the commands come; then the error stream also has a line on the start and the refused
/// lines. For lines that are explained the text is each line, and after each known line its meaning. The contract does
/// not know the bytes of a file.
///
/// The status is 0 where all feeds are whole and no line is refused, 1 where a feed is not whole or a line is refused,
/// 2 where the words, a file or the input are faulty, and 3 where the run failed, memory ran out or the output failed.
/// A replay has 0. Words that are explained have 1 where one of their lines is not known, and an input that is
/// explained has 0.
pub fn serve_words<R: AllocGlobal + System + Sync, I: Read + Send, O: Write + Drop, E: Write>(
    rt: &R,
    words: &[&str],
    input: &mut I,
    mut output: O,
    errors: &mut E,
) -> (Ended, O)
where
    R::File: Send,
    R::Dir: Send,
    R::Stream: Send,
    ensures { ServesProgram R.File.remaining (map (λ w. w.now) words.now) (I.remaining input.old) result.0 (streams (O.contents output) (O.contents result.1) (E.contents errors.old) (E.contents errors.new)) }
{
    let Some(line) = text_to_explain(words) else {
        return serve_modes(rt, words, input, output, errors);
    };
    let ended = explain_words(rt.alloc(), line, input, &mut output, errors);
    (ended, output)
}

/// The program: as [`serve_words`], over streams that it owns and drops at the end. Returns the status to end with. The
/// contract says that there are streams as [`serve_words`] leaves them.
pub fn serve<
    R: AllocGlobal + System + Sync,
    I: Read + Send + Drop,
    O: Write + Drop,
    E: Write + Drop,
>(rt: &R, words: &[&str], mut input: I, output: O, mut errors: E) -> u8
where
    R::File: Send,
    R::Dir: Send,
    R::Stream: Send,
    ensures { (ended : Ended) × (output' : O) × (errors' : E) × (result ≡ ended.status)
        × ServesProgram R.File.remaining (map (λ w. w.now) words.now) (I.remaining input) ended (streams (O.contents output) (O.contents output') (E.contents errors) (E.contents errors')) }
{
    let (ended, _output) = serve_words(rt, words, &mut input, output, &mut errors);
    ended.status
}
