// What a person at a terminal gets.

use host::{Progress, Quotes, Shown, ShownField, about};
use std::alloc::{AllocError, Global};
use std::cell::{Cell, RefCell};
use std::fmt::Display;
use std::io;
use std::rt::Clock;
use std::test::Fail;
use std::time::Duration;

// A terminal, and a clock that is 50 milliseconds on at each look.
#[derive(Drop)]
pub(super) struct Desk {
    millis: Cell<u64>,
    pub(super) shown: RefCell<String>,
}

impl Desk {
    pub(super) fn new(alloc: Global) -> Desk {
        Desk {
            millis: Cell::new(0),
            shown: RefCell::new(String::new(alloc)),
        }
    }
}

impl Clock for Desk {
    fn monotonic(&self) -> io::Result<Duration> {
        self.millis.set(self.millis.get().wrapping_add(50));
        Ok(Duration::from_millis(self.millis.get()))
    }

    fn since_1970(&self) -> io::Result<Duration> {
        self.monotonic()
    }
}

impl Eprint for Desk {
    fn eprint<D: Display + Drop>(&self, value: D) -> io::Result<()> {
        match self.shown.try_borrow_mut() {
            Ok(mut shown) => Ok(write!(shown, "{value}")?),
            Err(_) => Err(io::Error::from(io::ErrorKind::ResourceBusy)),
        }
    }

    fn eprintln<D: Display + Drop>(&self, value: D) -> io::Result<()> {
        self.eprint(format_args!("{value}\n"))
    }
}

#[test]
fn progress_is_drawn_ten_times_a_second_and_cleared(rt: HostRuntime) -> Result<(), Fail> {
    let rows = [
        (
            Some(12_345_678),
            "in.csv",
            [
                "spill: reading in.csv: 0.6 of 12.3 MB, 6000000 rows a second",
                "spill: reading in.csv: 1.0 of 12.3 MB, 5000000 rows a second",
            ],
        ),
        (
            None,
            "a-file-with-a-rather-long-name.csv",
            [
                "spill: reading: 0.6 MB, 6000000 rows a second",
                "spill: reading: 1.0 MB, 5000000 rows a second",
            ],
        ),
    ];
    let piece = vec![in rt.alloc(); b'\n'; 200_000]?;
    for (size, name, [first, second]) in rows {
        let desk = (Desk::new(rt.alloc()), rt.alloc());
        let mut progress = Progress::start(&desk, "reading", name, size)?;
        for _ in 0..5 {
            progress.pass(piece.as_slice());
        }
        progress.clear();
        progress.clear();
        let want = format!(in rt.alloc(); "\r{first:<78}\r{second:<78}\r{:78}\r", "")?;
        let shown = desk.0.shown.try_borrow()?;
        assert_eq!(rt; shown.as_str(), want.as_str());
    }
    Ok(())
}

#[test]
fn no_name_moves_the_cursor(rt: HostRuntime) -> Result<(), Fail> {
    let rows = [
        ("a b\u{e9}\\n", "a b\u{e9}\\n"),
        ("\r\n\t", "\\r\\n\\t"),
        ("\u{1b}[2J\0\u{7f}\u{9b}", "\\u{1b}[2J\\u{0}\\u{7f}\\u{9b}"),
    ];
    for (name, shown) in rows {
        let shown_name = format!(in rt.alloc(); "{}", Shown(name))?;
        assert_eq!(rt; shown_name.as_str(), shown);
    }
    let bytes = format!(in rt.alloc(); "{}", ShownField(b"\xff\nk"))?;
    assert_eq!(rt; bytes.as_str(), "\u{fffd}\\nk");
    Ok(())
}

#[test]
fn a_single_quote_shows_at_the_end_of_an_input(rt: HostRuntime) {
    let rows: [(&[&[u8]], bool); 5] = [
        (&[b""], false),
        (&[b"a\"b", b""], true),
        (&[b"a\"b"], false),
        (&[b"\"\"", b"\"", b""], true),
        (&[b"\"a", b"b\"", b""], false),
    ];
    for (pieces, is_single) in rows {
        let mut quotes = Quotes::new();
        for piece in pieces {
            quotes.pass(piece);
        }
        assert_eq!(rt; quotes.has_single(), is_single);
    }
}

#[test]
fn one_word_asks_for_help_or_the_version(rt: HostRuntime) -> Result<(), Fail> {
    let rows: [(&[&str], Option<&str>); 8] = [
        (&["help"], Some("usage: spill count FILE COLUMN\n")),
        (&["--help"], Some("usage: spill count FILE COLUMN\n")),
        (&["-h"], Some("usage: spill count FILE COLUMN\n")),
        (&["--version"], Some("spill 0.1.0\n")),
        (&[], None),
        (&["count"], None),
        (&["help", "count"], None),
        (&["count", "--version", "k"], None),
    ];
    for (words, begins) in rows {
        let words = owned(rt.alloc(), words)?;
        let text = about(words.as_slice());
        assert_eq!(rt; text.is_some(), begins.is_some());
        assert!(rt; text.unwrap_or("").starts_with(begins.unwrap_or("")));
    }
    Ok(())
}

pub(super) fn owned(alloc: Global, words: &[&str]) -> Result<Vec<String>, AllocError> {
    let mut all = Vec::new(alloc);
    for word in words {
        all.push(String::from_str(alloc, word)?)?;
    }
    Ok(all)
}
