// What no clause says: that the calls succeed where there is memory, and what is published of a few texts.
ghost use Rattle.std.specs.Prelude.{◌≡◌, ◌<◌, IfOk, OnOk, true};
ghost use Rattle.lw_reading.specs.Laws.{IsReadOneWay};

use lw_base::{DocId, Items, Name, NoMemory, RefId, Steps};
use lw_build::{Seen, WorkFault, Workspace};
use lw_index::Answer;
use lw_io::{MemPatterns, MemStore};
use lw_lang::{Language, compile};
use lw_machine::Published;
use lw_query::Views;
use lw_text::{Change, Shown};
use std::alloc::Global;
use std::collections::BTreeMap;
use std::marker::Brand;
use std::process::Abort;
use std::sync::ledger::{Blank, Ledger};
use std::test::Fail;

const STATES: &str =
    "grammar S entry Model: 'model' name=ID states+=State*; State: 'state' name=ID ('to' next+=[State:ID])* 'end'; hidden terminal WS: /\\s+/; terminal ID: /[_a-zA-Z][\\w_]*/;";

fn language(rt: &impl Abort, alloc: Global) -> Result<Language, NoMemory>
    ensures { IfOk result (λ language. IsReadOneWay language.grammar) }
{
    let root = Name::from_text(alloc, "f.langium")?;
    let mut files = Vec::new(alloc);
    files.push((root.copy(alloc)?, STATES.as_bytes().to_vec(alloc)?))?;
    let mut store = MemStore::new(files, Vec::new(alloc));
    let mut patterns = MemPatterns::new(Vec::new(alloc));
    match compile(alloc, &root, 2, &mut store, &mut patterns) {
        Ok(language) => Ok(language),
        Err(_) => panic!(rt; "the grammar is not built"),
    }
}

/// What happens to the document at an address.
#[derive(Clone, Copy)]
enum Event {
    Put(&'static str),
    Edit(&'static str),
    Remove,
}

/// A list as its address and the codes of what is told.
fn written(alloc: Global, told: &mut String, published: &Published) -> Result<(), NoMemory> {
    told.push_str(published.uri.text())?;
    'codes: for shown in published.list.as_slice() {
        let code = shown.code;
        told.push_str(format!(in alloc; "{code}")?.as_str())?;
    }
    told.push_str(";")?;
    Ok(())
}

/// What happens to a document at a moment, and what is published then.
type Row = (&'static str, Event, &'static str);

fn change(alloc: Global, text: &str) -> Result<Items<Change>, NoMemory> {
    let mut changes = Items::new(alloc);
    changes.push(Change {
        range: None,
        text: Name::from_text(alloc, text)?,
    })?;
    Ok(changes)
}

/// What the event publishes by itself.
fn happen(
    alloc: Global,
    workspace: &mut Workspace,
    address: &Name,
    event: Event,
) -> Result<Option<Published>, WorkFault> {
    match event {
        Event::Put(text) => {
            workspace.put(address, Name::from_text(alloc, text)?, Some(1), true)?;
            Ok(None)
        }
        Event::Edit(text) => {
            workspace.edit(address, change(alloc, text)?.as_slice(), 2)?;
            Ok(None)
        }
        Event::Remove => workspace.remove(address),
    }
}

/// What an event and the build behind it publish.
fn told<L: Ledger>(
    alloc: Global,
    workspace: &mut Workspace,
    steps: &mut Steps<L>,
    address: &str,
    event: Event,
) -> Result<String, WorkFault> {
    let address = Name::from_text(alloc, address)?;
    let mut told = String::new(alloc);
    if let Some(published) = happen(alloc, workspace, &address, event)? {
        written(alloc, &mut told, &published)?;
    }
    let lists = workspace.advance(steps)?;
    'lists: for published in lists.as_slice() {
        written(alloc, &mut told, published)?;
    }
    Ok(told)
}

fn played<L: Ledger>(
    rt: &impl Abort,
    alloc: Global,
    blank: Blank,
    rows: &[Row],
) -> Result<(), WorkFault>
    requires name { blank.name ≡ L.name }
    requires parts { blank.parts ≡ L.parts }
    requires some { 0 < blank.parts }
{
    let (book, share) = blank.open::<L>();
    let mut steps = Steps::new(book, share);
    let mut workspace = Workspace::new(alloc, language(rt, alloc)?);
    'rows: for (address, event, published) in rows {
        let told = told(alloc, &mut workspace, &mut steps, address, *event)?;
        assert!(rt; told.as_str() == *published, "{address} publishes {told}");
    }
    Ok(())
}

fn play(rt: &impl Abort, alloc: Global, rows: &[Row]) -> Result<(), WorkFault> {
    played::<Brand>(rt, alloc, Blank::new(1), rows)
}

/// Two documents that refer to one another. A list is written as its address and its codes: 2 is a fault of syntax, 3 a reference that
/// leads nowhere, 5 an export that another document has too.
const ROWS: [Row; 9] = [
    ("b", Event::Put("model B state t to s end"), "b3;"),
    ("a", Event::Put("model A state s to t end"), "a;b;"),
    ("a", Event::Put("model A state s to t end"), ""),
    ("b", Event::Edit("model B state u end"), "a3;"),
    ("b", Event::Edit("model B state u"), "b2;"),
    (
        "b",
        Event::Edit("model B state s end state t end"),
        "a5;b5;",
    ),
    ("a", Event::Remove, "a;b;"),
    ("a", Event::Put("model A state s to t end"), "a5;b5;"),
    ("b", Event::Remove, "b;a3;"),
];

#[test]
fn documents_refer_to_one_another(rt: HostRuntime) -> Result<(), Fail> {
    assert!(rt; play(&rt, rt.alloc(), &ROWS).is_ok());
    Ok(())
}

// ---- sessions by chance

const ADDRESSES: [&str; 5] = ["a", "b", "c", "d", "e"];

const TEXTS: [&str; 8] = [
    "model A state s to t end",
    "model B state t to s end",
    "model C state u to s to t to u end",
    "model D state s end state s end",
    "model D state",
    "model E state t to u end state v to w end",
    "?",
    "model A state w to v end",
];

/// The next of a row of numbers.
fn next(seed: u32) -> u32
    ensures { result < 2147483648 }
{
    ((seed as u64 * 1103515245 + 12345) % 2147483648) as u32
}

/// What was published last at each address.
type Lasts = BTreeMap<Name, Items<Shown>>;

/// The event that two numbers stand for, at an address that may have a document.
fn event_of(first: u32, second: u32, is_held: bool) -> Event {
    let text = TEXTS[(first / 65536 % 8) as usize];
    match (second / 65536 % 4, is_held) {
        (0, true) => Event::Remove,
        (1, true) => Event::Edit(text),
        _ => Event::Put(text),
    }
}

/// Keeps a list as the last of its address.
fn keep(lasts: &mut Lasts, published: Published) -> Result<(), NoMemory> {
    let Published {
        uri,
        version: _,
        list,
    } = published;
    lasts.insert(uri, list)?;
    Ok(())
}

fn build<L: Ledger>(
    workspace: &mut Workspace,
    steps: &mut Steps<L>,
    lasts: &mut Lasts,
) -> Result<(), NoMemory>
    ensures { OnOk result (workspace.new.is_built ≡ true) }
{
    let mut lists = workspace.advance(steps)?;
    'lists: for _ in 0..lists.len() {
        if let Some(published) = lists.pop() {
            keep(lasts, published)?;
        }
    }
    Ok(())
}

/// Does an event, and forgets the last list of a document that is removed.
fn one_event(
    alloc: Global,
    workspace: &mut Workspace,
    lasts: &mut Lasts,
    address: &Name,
    event: Event,
) -> Result<(), WorkFault> {
    happen(alloc, workspace, address, event)?;
    if let Event::Remove = event {
        lasts.remove(address);
    }
    Ok(())
}

/// Does one event, builds behind two of three, and answers the next number.
fn wander_once<L: Ledger>(
    alloc: Global,
    workspace: &mut Workspace,
    steps: &mut Steps<L>,
    lasts: &mut Lasts,
    seed: u32,
) -> Result<u32, WorkFault> {
    let first = next(seed);
    let second = next(first);
    let third = next(second);
    let address = Name::from_text(alloc, ADDRESSES[(first / 65536 % 5) as usize])?;
    let is_held = workspace.find(&address).is_some();
    one_event(
        alloc,
        workspace,
        lasts,
        &address,
        event_of(second, third, is_held),
    )?;
    if third / 65536 % 3 != 0 {
        build(workspace, steps, lasts)?;
    }
    Ok(third)
}

/// Does one event after another, and keeps what is published.
fn wander<L: Ledger>(
    alloc: Global,
    workspace: &mut Workspace,
    steps: &mut Steps<L>,
    lasts: &mut Lasts,
    start: u32,
) -> Result<(), WorkFault>
    ensures { OnOk result (workspace.new.is_built ≡ true) }
{
    let mut seed = start;
    'events: for _ in 0..12u32 {
        seed = wander_once(alloc, workspace, steps, lasts, seed)?;
    }
    build(workspace, steps, lasts)?;
    Ok(())
}

/// Puts the texts of a workspace into another.
fn put_all(alloc: Global, workspace: &Workspace, other: &mut Workspace) -> Result<(), WorkFault> {
    'texts: for (address, _number) in workspace.uris() {
        if let Some(text) = workspace.text_of(address) {
            other.put(address, text.as_name().copy(alloc)?, None, false)?;
        }
    }
    Ok(())
}

fn same(last: Option<&Items<Shown>>, list: Option<&Items<Shown>>) -> bool {
    match (last, list) {
        (Some(last), Some(list)) => last.as_slice() == list.as_slice(),
        (None, None) => true,
        _ => false,
    }
}

/// Whether two have the same list at each address.
fn all_same(alloc: Global, lasts: &Lasts, news: &Lasts) -> Result<bool, NoMemory> {
    'addresses: for address in ADDRESSES {
        let address = Name::from_text(alloc, address)?;
        if !same(lasts.get(&address), news.get(&address)) {
            return Ok(false);
        }
    }
    Ok(true)
}

/// A new workspace of the same texts, which is built. What it publishes is kept.
fn built_anew<L: Ledger>(
    rt: &impl Abort,
    alloc: Global,
    workspace: &Workspace,
    steps: &mut Steps<L>,
    news: &mut Lasts,
) -> Result<Workspace, WorkFault>
    ensures { IfOk result (λ other. other.is_built ≡ true) }
{
    let mut other = Workspace::new(alloc, language(rt, alloc)?);
    put_all(alloc, workspace, &mut other)?;
    build(&mut other, steps, news)?;
    Ok(other)
}

/// Whether two references lead to the same node, by the addresses of documents, and as many lead there in the one workspace as in the
/// other.
fn lead_alike(
    one: &Seen<'_>,
    other: &Seen<'_>,
    from: Option<Answer>,
    to: Option<Answer>,
) -> Result<bool, NoMemory> {
    match (from, to) {
        (Some(Answer::Found(from)), Some(Answer::Found(to))) => Ok(
            one.uri(from.doc) == other.uri(to.doc)
                && from.node == to.node
                && one.refs().of(from)?.len() == other.refs().of(to)?.len(),
        ),
        (Some(Answer::Missing), Some(Answer::Missing)) => Ok(true),
        (None, None) => Ok(true),
        _ => Ok(false),
    }
}

/// Whether the first references of two documents lead to the same.
fn answer_alike(
    one: &Seen<'_>,
    other: &Seen<'_>,
    doc: DocId,
    twin: DocId,
) -> Result<bool, NoMemory> {
    'references: for place in 0..4u32 {
        let from = one.answer(doc, RefId(place));
        let to = other.answer(twin, RefId(place));
        if !lead_alike(one, other, from, to)? {
            return Ok(false);
        }
    }
    Ok(true)
}

/// Whether the references of two workspaces lead to the same, document by document.
fn all_alike(alloc: Global, one: &Workspace, other: &Workspace) -> Result<bool, NoMemory>
    requires one { one.now.is_built ≡ true }
    requires other { other.now.is_built ≡ true }
{
    let (seen, anew) = (one.seen(), other.seen());
    'addresses: for address in ADDRESSES {
        let address = Name::from_text(alloc, address)?;
        if let (Some(doc), Some(twin)) = (one.find(&address), other.find(&address)) {
            if !answer_alike(&seen, &anew, doc, twin)? {
                return Ok(false);
            }
        }
    }
    Ok(one.views(alloc)?.len() == other.views(alloc)?.len())
}

/// Whether a session and a new workspace of the texts that it leaves publish the same, and their references lead to the same.
fn session<L: Ledger>(
    rt: &impl Abort,
    alloc: Global,
    blank: Blank,
    start: u32,
) -> Result<bool, WorkFault>
    requires name { blank.name ≡ L.name }
    requires parts { blank.parts ≡ L.parts }
    requires some { 0 < blank.parts }
{
    let (book, share) = blank.open::<L>();
    let mut steps = Steps::new(book, share);
    let mut workspace = Workspace::new(alloc, language(rt, alloc)?);
    let mut lasts = BTreeMap::new(alloc);
    wander(alloc, &mut workspace, &mut steps, &mut lasts, start)?;
    let mut news = BTreeMap::new(alloc);
    let other = built_anew(rt, alloc, &workspace, &mut steps, &mut news)?;
    Ok(all_same(alloc, &lasts, &news)? && all_alike(alloc, &workspace, &other)?)
}

fn one_session(rt: &impl Abort, alloc: Global, start: u32) -> Result<bool, WorkFault> {
    session::<Brand>(rt, alloc, Blank::new(1), start)
}

#[test]
fn sessions_end_as_new_workspaces(rt: HostRuntime) -> Result<(), Fail> {
    let mut seed = 7;
    for _ in 0..200u32 {
        seed = next(seed);
        assert!(rt; one_session(&rt, rt.alloc(), seed)?, "session {seed}");
    }
    Ok(())
}
