// Which row is too long for its page, and what would do.

use crate::input_words::Place;
use crate::sentences::{Front, Ran};
use crate::shown::Shown;
use std::io;

// What the row of a count has beside its value, and the longest value.
const BESIDE_VALUE: u64 = 24;

const LONGEST_VALUE: u64 = 8168;

// The most blocks of a page.
const PAGE_BLOCKS: u64 = 256;

// A quote that isn't closed makes one value of all that follows.
const UNCLOSED: &str = "if no value is that long, a quote may not be closed";

// The pages of a query.
#[derive(Clone, Copy)]
pub(crate) struct Page {
    pub(crate) blocks: u64,
    pub(crate) block_len: u64,
}

impl Page {
    // The blocks of the shortest page that has so many bytes, if one has.
    fn blocks_for(self, bytes: u64) -> Option<u64> {
        if self.block_len == 0 {
            return None;
        }
        let blocks = bytes.div_ceil(self.block_len);
        if blocks > PAGE_BLOCKS {
            return None;
        }
        Some(blocks.next_power_of_two())
    }
}

pub(crate) fn tell_row(
    rt: &impl Eprint,
    front: Front<'_>,
    place: Place<'_>,
    weight: u64,
    ran: Ran<'_>,
    page: Option<Page>,
) -> io::Result<()> {
    if let Ran::Count { column, .. } = ran {
        return eprintln!(rt;
            "{front}{place}: the value in the column \"{}\" has {} bytes, and at most {LONGEST_VALUE} fit: a plan with longer pages may do; {UNCLOSED}",
            Shown(column),
            weight.saturating_sub(BESIDE_VALUE)
        );
    }
    match page {
        Some(page) => tell_page(rt, front, place, weight, page),
        None => eprintln!(rt;
            "{front}{place}: its row takes {weight} bytes, and a page has fewer: longer pages (\"page_blocks\") would do; {UNCLOSED}"
        ),
    }
}

fn tell_page(
    rt: &impl Eprint,
    front: Front<'_>,
    place: Place<'_>,
    weight: u64,
    page: Page,
) -> io::Result<()> {
    let has = page.blocks.saturating_mul(page.block_len);
    match page.blocks_for(weight) {
        Some(blocks) => eprintln!(rt;
            "{front}{place}: its row takes {weight} bytes, and a page has {has}: a \"page_blocks\" of {blocks} would do; {UNCLOSED}"
        ),
        None => eprintln!(rt;
            "{front}{place}: its row takes {weight} bytes, and a page has {has}: longer blocks (\"block_len\") may do; {UNCLOSED}"
        ),
    }
}
