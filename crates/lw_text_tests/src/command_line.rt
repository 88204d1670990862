// What words are, as a table.
use lw_base::{Name, NoMemory};
use lw_command_line::{Command, command_of};
use std::alloc::Global;
use std::test::Fail;

fn names(alloc: Global, words: &[&str]) -> Result<Vec<Name>, NoMemory> {
    let mut names = Vec::new(alloc);
    for word in words {
        names.push(Name::from_text(alloc, word)?)?;
    }
    Ok(names)
}

// Files behind one another, each behind a space.
fn listed(alloc: Global, files: &[&Name]) -> Result<String, NoMemory> {
    let mut text = String::new(alloc);
    for file in files {
        text.push_str(" ")?;
        text.push_str(file.text())?;
    }
    Ok(text)
}

// A command as a line: its name, the grammar between brackets, how many kinds, and the rest.
fn shown(alloc: Global, command: &Command) -> Result<String, NoMemory> {
    let root = command.root();
    let path = root.path;
    let k = root.k;
    match command {
        Command::Check(_) => Ok(format!(in alloc; "check <{path}> {k}")?),
        Command::Serve(_, files) => {
            let files = listed(alloc, files)?;
            Ok(format!(in alloc; "serve <{path}> {k}{files}")?)
        }
        Command::Make(_, count) => Ok(format!(in alloc; "make <{path}> {k} {count}")?),
    }
}

fn shown_words(alloc: Global, words: &[&str]) -> Result<String, NoMemory> {
    let words = names(alloc, words)?;
    match command_of(alloc, &words)? {
        Some(command) => shown(alloc, &command),
        None => Ok(String::from_str(alloc, "none")?),
    }
}

#[test]
fn words_are_commands(rt: HostRuntime) -> Result<(), Fail> {
    for (words, command) in [
        (["check", "g"].as_slice(), "check <g> 2"),
        (&["check", "--", "g"], "check <g> 2"),
        (&["check", "-x"], "none"),
        (&["check", "a", "b"], "none"),
        (&["check", "--lookahead", "1", "g"], "check <g> 1"),
        (&["check", "g", "--lookahead=3"], "check <g> 3"),
        (
            &["check", "--lookahead", "2", "g", "--lookahead", "2"],
            "none",
        ),
        (&["check", "-"], "none"),
        (&["check", "--", "-g"], "check <-g> 2"),
        (&["check", "--", "--"], "check <--> 2"),
        (&["serve", "g", "/a", "/b"], "serve <g> 2 /a /b"),
        (&["serve", "g", "a"], "none"),
        (
            &["serve", "/f", "--lookahead", "3", "/a"],
            "serve </f> 3 /a",
        ),
        (&["serve", "g", "--", "a"], "none"),
        (
            &["serve", "g", "--lookahead=1", "--", "/a"],
            "serve <g> 1 /a",
        ),
        (&["make", "g", "0"], "none"),
        (&["make", "g", "10000"], "none"),
        (&["make", "g", "0020"], "make <g> 2 20"),
        (&["make", "g", "9999"], "make <g> 2 9999"),
        (&["make", "g", "+1"], "none"),
        (&["make", "g", "12345"], "none"),
        (&["make", "g", ""], "none"),
        (&["make", "g"], "none"),
        (&["make"], "none"),
        (&[], "none"),
        (&["check", ""], "check <> 2"),
        (&["--lookahead", "2", "check", "g"], "none"),
        (&["check", "g", "--lookahead"], "none"),
        (&["check", "g", "--lookahead", "4"], "none"),
        (&["check", "g", "--lookahead="], "none"),
        (&["check", "g", "--", "--lookahead=1"], "none"),
    ] {
        let told = shown_words(rt.alloc(), words)?;
        assert_eq!(rt; told.as_str(), command, "at {words:?}");
    }
    Ok(())
}

// How many files there are in words that serve so many.
fn served(alloc: Global, count: usize) -> Result<Option<usize>, NoMemory> {
    let mut words = names(alloc, &["serve", "g"])?;
    for _ in 0..count {
        words.push(Name::from_text(alloc, "/a")?)?;
    }
    match command_of(alloc, &words)? {
        Some(Command::Serve(_, files)) => Ok(Some(files.len())),
        _ => Ok(None),
    }
}

#[test]
fn as_many_files_are_served_as_documents_are_held(rt: HostRuntime) -> Result<(), Fail> {
    for (count, files) in [(0, Some(0)), (65_536, Some(65_536)), (65_537, None)] {
        assert_eq!(rt; served(rt.alloc(), count)?, files, "of {count}");
    }
    Ok(())
}
