// Where an input may be cut.

ghost use Rattle.std.specs.Prelude.{◌≡◌, ◌≢◌, ◌<◌, ℕ, length};
ghost use Rattle.csv_edge.specs.Pieces.{after_byte, is_cut};
ghost use Rattle.csv_edge.specs.Cutting.{FrontIs, HasNone, after_bytes};

use memchr::memchr;

/// Where a scan of an input's bytes stands.
#[derive(Clone, Copy)]
pub(crate) enum Scan {
    /// At the start of a field.
    Start,
    /// Inside a field that has no quotes, or behind what follows its quotes.
    Plain,
    /// Inside quotes.
    Quoted,
    /// Behind a quote inside quotes: it closes them, or a second one follows.
    Closing,
}

impl Scan {
    /// Where the scan stands behind this byte.
    pub(crate) fn after(self, byte: u8) -> Scan
        ensures { result ≡ after_byte self byte }
    {
        // Most bytes stand above all that end a field or are a quote.
        if byte > b',' {
            return self.through();
        }
        match (self, byte) {
            (Scan::Start | Scan::Closing, b'"') => Scan::Quoted,
            (Scan::Quoted, b'"') => Scan::Closing,
            (Scan::Quoted, _) => Scan::Quoted,
            (_, b',' | b'\n' | b'\r') => Scan::Start,
            _ => Scan::Plain,
        }
    }

    // Where the scan stands behind a byte that means nothing.
    fn through(self) -> Scan
        ensures { (byte : ℕ) → 44 < byte → result ≡ after_byte self byte }
    {
        match self {
            Scan::Quoted => Scan::Quoted,
            _ => Scan::Plain,
        }
    }

    /// Whether the input may be cut behind this byte.
    pub(crate) fn cuts(self, byte: u8) -> bool
        ensures { result ≡ is_cut self byte }
    {
        byte == b'\n' && self != Scan::Quoted
    }
}

/// How much of some bytes belongs to a piece.
#[derive(Clone, Copy)]
pub(crate) enum Front {
    /// So many bytes: a cut stands behind them.
    Cut(usize),
    /// All of them, behind which the scan stands here.
    All(Scan),
}

/// Scans bytes for the first cut that has at least so many of them before it.
///
/// Where no quote is among them and none is open, only newlines are looked for.
pub(crate) fn front_of(start: Scan, least: usize, bytes: &[u8]) -> Front
    ensures { FrontIs start least bytes.now result }
{
    if start != Scan::Quoted && memchr(b'"', bytes).is_none() {
        front_of_plain(start, least, bytes)
    } else {
        front_by_bytes(start, least, bytes)
    }
}

// The same for bytes without quotes, from outside quotes.
fn front_of_plain(start: Scan, least: usize, bytes: &[u8]) -> Front
    requires outside { start ≢ Scan.Quoted }
    requires plain { HasNone 34 bytes.now 0 (length bytes.now) }
    ensures { FrontIs start least bytes.now result }
{
    let from = least.saturating_sub(1).min(bytes.len());
    match memchr(b'\n', &bytes[from..]) {
        Some(at) => Front::Cut(from + at + 1),
        None => Front::All(scan_behind(start, bytes)),
    }
}

// Where the scan stands behind such bytes: the last of them tells.
fn scan_behind(start: Scan, bytes: &[u8]) -> Scan
    requires outside { start ≢ Scan.Quoted }
    requires plain { HasNone 34 bytes.now 0 (length bytes.now) }
    ensures { result ≡ after_bytes start bytes.now }
{
    if bytes.is_empty() {
        start
    } else {
        start.after(bytes[bytes.len() - 1])
    }
}

// The same, byte by byte.
fn front_by_bytes(start: Scan, least: usize, bytes: &[u8]) -> Front
    ensures { FrontIs start least bytes.now result }
{
    let mut scan = start;
    let mut len = 0;
    for byte in bytes {
        len += 1;
        if scan.cuts(*byte) && least <= len {
            return Front::Cut(len);
        }
        scan = scan.after(*byte);
    }
    Front::All(scan)
}
