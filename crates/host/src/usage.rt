// What the program says of itself, on standard output.

ghost use Rattle.std.specs.Prelude.{◌≡◌, OnSome, length};

// Each command with an example. The script `spill` prints these lines out of this file while the
// program isn't built.
pub(crate) const USAGE: &str = "\
usage: spill count FILE COLUMN
       spill run PLAN
       spill selfcheck START ROWS GROUPS BLOCKS
       spill help
       spill --version

count FILE COLUMN   how often each value of a column occurs in a CSV file
    spill count orders.csv city
    spill count /dev/stdin city < orders.csv
run PLAN            the queries of a plan's file, beside each other, each into a file of its own
    spill run examples/cities.toml
selfcheck START ROWS GROUPS BLOCKS
                    groups a table that it makes, of so many ROWS in so many GROUPS, in a memory of BLOCKS of
                    8192 bytes (20 or more), into the file selfcheck.csv, and tells the sums of the answer
    spill selfcheck 3 1000000 50000 128
help                this text; also --help and -h
    spill help
--version           the name of the program and its version
    spill --version
";

const VERSION: &str = "spill 0.1.0\n";

/// The text that a word asks for: help, or the program's name and version. It stands alone, so every command reaches the top
/// call. The words are those behind the program's name.
pub fn about(words: &[String]) -> Option<&'static str>
    ensures alone { OnSome result (length words.now ≡ 1) }
{
    let [word] = words else {
        return None;
    };
    match word.as_str() {
        "help" | "--help" | "-h" => Some(USAGE),
        "--version" => Some(VERSION),
        _ => None,
    }
}
