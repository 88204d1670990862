// The session of `serve`: bodies out of the source, replies into the sink.
ghost use Rattle.std.specs.Prelude.{◌≡◌, ◌+◌, ◌<◌, ◌≤◌, ◌⊎◌, IfOk, IfErr, IfSome, OnOk, OnErr, Err, List, None, false, length, map, ℕ};
ghost use Rattle.std.specs.Io.KnownBytes.{Appends};
ghost use Rattle.lw_frame.specs.Frames.{bodies_of, fault_of, frame_of};
ghost use Rattle.lw_frame.specs.Stream.{after_next, next_answer, next_body};
ghost use Rattle.lw_frame.specs.Wanted.{StaysWithin};
ghost use Rattle.lw_conversation.specs.Opening.{most_documents};
ghost use Rattle.lw_conversation.specs.Standing.{beginning};
ghost use Rattle.lw_commands.specs.Checking.{IsCaused};
ghost use Rattle.lw_commands.specs.Serving.{Conversed, CountsSession, ServeComesTo, WritesPart};
ghost use Rattle.lw_commands.specs.Stops.{Counts, TheSource, TheSink, ThePatterns};
ghost use Rattle.lw_commands.specs.Talking.{AnswersNext, LosesPiece, Responds, RunsOut, StopsResponding, TakesPiece, in_frames};

use crate::desk::Desk;
use crate::named::load_named;
use crate::report::Verdict;
use crate::stop::Stop;
use lw_base::{Name, NoMemory, Steps};
use lw_command_line::Root;
use lw_conversation::one_outcome;
use lw_frame::{FrameReader, LONGEST_SESSION, header_part};
use lw_io::{Patterns, Read, Sink, Source, Store, write_all};
use lw_lang::compile;
use lw_session::{Ended, Mode, Session};
use std::alloc::Global;
use std::sync::ledger::Ledger;

/// Reads the grammar and the files that are named, then answers the session of the source frame by frame, and leaves it on the desk. Where the store fails in
/// the session, the session goes on.
pub(crate) fn serve<S: Source, K: Sink, F: Store, P: Patterns, L: Ledger>(
    alloc: Global,
    root: Root<'_>,
    paths: &[&Name],
    source: &mut S,
    out: &mut K,
    store: &mut F,
    patterns: &mut P,
    desk: &mut Desk,
    steps: &mut Steps<L>,
) -> Result<Verdict, Stop>
    requires few { length paths.now ≤ most_documents }
    ensures works { IfSome (F.files store.old) (λ files.
        ServeComesTo files root.entry.path.now (map (λ path. path.now) paths.now) root.entry.k (P.last_refused patterns.new) (S.left source.old) (S.left source.new) (K.written out.old) (K.written out.new) (F.count store.old, F.count store.new) result) }
    ensures cause { IsCaused (F.files store.old) root.entry.path.now root.entry.k (P.last_refused patterns.new) result }
    ensures not_words { ¬ (result ≡ Err Stop.Words) }
    ensures source { Counts TheSource (S.count source.old) (S.count source.new) result }
    ensures sink { Counts TheSink (K.count out.old) (K.count out.new) result }
    ensures store { CountsSession (F.count store.old, F.count store.new) result }
    ensures patterns { Counts ThePatterns (P.count patterns.old) (P.count patterns.new) result }
{
    let language = compile(alloc, root.path, root.k, store, patterns)?;
    one_outcome();
    let mut session = Session::new(alloc, language, Mode::Full)?;
    load_named(alloc, &mut session, paths, store)?;
    let outcome = converse(alloc, &mut session, source, out, store, steps);
    desk.leave(session);
    outcome
}

// Answers body after body up to `exit`, each before the next read. No byte behind the message that is
// being read is taken from the source.
fn converse<S: Source, K: Sink, F: Store, L: Ledger>(
    alloc: Global,
    session: &mut Session,
    source: &mut S,
    out: &mut K,
    store: &mut F,
    steps: &mut Steps<L>,
) -> Result<Verdict, Stop>
    requires { (named : List (List ℕ × List ℕ)) × (session.old.standing ≡ beginning named) }
    ensures conversed { (named : List (List ℕ × List ℕ)) → session.old.standing ≡ beginning named → Conversed session.old.setting (F.files store.old) named (S.left source.old) (S.left source.new) (K.written out.old) (K.written out.new) (F.count store.old, F.count store.new) result }
    ensures source { Counts TheSource (S.count source.old) (S.count source.new) result }
    ensures sink { Counts TheSink (K.count out.old) (K.count out.new) result }
{
    let mut reader = FrameReader::new(alloc);
    let mut taken = 0;
    'taking: while taken < LONGEST_SESSION {
        match take_piece(source, &mut reader, LONGEST_SESSION - taken) {
            Ok(0) => return run_out(&mut reader),
            Ok(count) => taken += count as u64,
            Err(stop) => return Err(stop),
        }
        match answer_next(alloc, session, &mut reader, out, store, steps) {
            Ok(Ended::No) => {}
            Ok(Ended::Clean) => return Ok(Verdict::Whole),
            Ok(Ended::Early) => return Ok(Verdict::Broken),
            Err(stop) => return Err(stop),
        }
    }
    Err(Stop::Limit)
}

// Feeds the reader with the next bytes of the source, none of them behind the message that is being
// read, and answers how many: 0 where the source is at its end.
fn take_piece<S: Source>(source: &mut S, reader: &mut FrameReader, room: u64) -> Result<usize, Stop>
    requires open { reader.old.stream.closed ≡ false }
    requires room { 0 < room }
    requires session { length reader.old.stream.fed + room ≤ LONGEST_SESSION }
    ensures taken { IfOk result (TakesPiece (S.left source.old) (S.left source.new) reader.old.stream reader.new.stream) }
    ensures within { IfOk result (λ count. count ≤ room) }
    ensures fault { IfErr result (LosesPiece (S.left source.old) (S.left source.new) reader.old.stream) }
    ensures source { Counts TheSource (S.count source.old) (S.count source.new) result }
{
    let mut buffer = [0u8; 8192];
    let most = reader.wanted().min(buffer.len()).min(room as usize);
    take_into(source, reader, &mut buffer[..most])
}

// The same, of at most as many bytes as the buffer has.
fn take_into<S: Source>(
    source: &mut S,
    reader: &mut FrameReader,
    buffer: &mut [u8],
) -> Result<usize, Stop>
    requires some { 0 < length buffer.old }
    requires open { reader.old.stream.closed ≡ false }
    requires session { length reader.old.stream.fed + length buffer.old ≤ LONGEST_SESSION }
    requires within { StaysWithin reader.old.stream.fed (length buffer.old) }
    ensures taken { IfOk result (TakesPiece (S.left source.old) (S.left source.new) reader.old.stream reader.new.stream) }
    ensures within { IfOk result (λ count. count ≤ length buffer.old) }
    ensures fault { IfErr result (LosesPiece (S.left source.old) (S.left source.new) reader.old.stream) }
    ensures source { Counts TheSource (S.count source.old) (S.count source.new) result }
{
    match source.read(buffer) {
        Read::Got(count) => match reader.feed(&buffer[..count]) {
            Ok(()) => Ok(count),
            Err(NoMemory) => Err(Stop::Memory),
        },
        Read::End => Ok(0),
        Read::Failed => Err(Stop::Read),
    }
}

// How a session ends whose bytes are over: between two messages, or inside one.
fn run_out(reader: &mut FrameReader) -> Result<Verdict, Stop>
    requires { next_body reader.old.stream ≡ None }
    ensures { RunsOut reader.old.stream.fed result }
{
    reader.close();
    match reader.next() {
        Ok(_) => Ok(Verdict::Broken),
        Err(fault) => Err(Stop::Frames(fault)),
    }
}

// Answers the body that the reader hands out, if it does.
fn answer_next<K: Sink, F: Store, L: Ledger>(
    alloc: Global,
    session: &mut Session,
    reader: &mut FrameReader,
    out: &mut K,
    store: &mut F,
    steps: &mut Steps<L>,
) -> Result<Ended, Stop>
    ensures answered { AnswersNext session.old.setting (F.files store.old) session.old.standing (K.written out.old) (K.written out.new) (F.count store.old, F.count store.new) (next_answer reader.old.stream) session.new.standing result }
    ensures stream { reader.new.stream ≡ after_next reader.old.stream }
    ensures setting { session.new.setting ≡ session.old.setting }
    ensures sink { Counts TheSink (K.count out.old) (K.count out.new) result }
    ensures files { F.files store.new ≡ F.files store.old }
{
    match reader.next() {
        Ok(Some(body)) => respond(alloc, session, body.bytes(), out, store, steps),
        Ok(None) => Ok(Ended::No),
        Err(fault) => Err(Stop::Frames(fault)),
    }
}

// Answers one body, and writes each reply in a frame of its own.
fn respond<K: Sink, F: Store, L: Ledger>(
    alloc: Global,
    session: &mut Session,
    body: &[u8],
    out: &mut K,
    store: &mut F,
    steps: &mut Steps<L>,
) -> Result<Ended, Stop>
    ensures answered { IfOk result (Responds session.old.setting (F.files store.old) session.old.standing (K.written out.old) (K.written out.new) (F.count store.old, F.count store.new) body.now session.new.standing) }
    ensures stopped { IfErr result (StopsResponding session.old.setting (F.files store.old) session.old.standing (K.written out.old) (K.written out.new) (F.count store.old, F.count store.new) body.now) }
    ensures setting { session.new.setting ≡ session.old.setting }
    ensures sink { Counts TheSink (K.count out.old) (K.count out.new) result }
    ensures files { F.files store.new ≡ F.files store.old }
{
    let handled = session.handle(body, store, steps)?;
    write_replies(alloc, out, handled.replies.as_slice())?;
    Ok(handled.ended)
}

fn write_replies<K: Sink>(alloc: Global, out: &mut K, replies: &[Name]) -> Result<(), Stop>
    ensures whole { OnOk result (Appends (K.written out.old) (K.written out.new) (in_frames replies.now)) }
    ensures part { OnErr result (WritesPart (K.written out.old) (K.written out.new) (in_frames replies.now)) }
    ensures fault { OnErr result ((result ≡ Err Stop.Write) ⊎ (result ≡ Err Stop.Memory)) }
    ensures sink { Counts TheSink (K.count out.old) (K.count out.new) result }
{
    'replies: for reply in replies {
        write_reply(alloc, out, reply)?;
    }
    Ok(())
}

// Writes the header part of a reply, and then the reply as it is.
fn write_reply<K: Sink>(alloc: Global, out: &mut K, reply: &Name) -> Result<(), Stop>
    ensures whole { OnOk result (Appends (K.written out.old) (K.written out.new) (frame_of reply.now)) }
    ensures part { OnErr result (WritesPart (K.written out.old) (K.written out.new) (frame_of reply.now)) }
    ensures fault { OnErr result ((result ≡ Err Stop.Write) ⊎ (result ≡ Err Stop.Memory)) }
    ensures sink { Counts TheSink (K.count out.old) (K.count out.new) result }
{
    let header = header_part(alloc, reply.bytes().len())?;
    write_all(out, header.bytes())?;
    write_all(out, reply.bytes())?;
    Ok(())
}
