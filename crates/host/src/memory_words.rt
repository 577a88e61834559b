// Which memory or scratch would do for a query that had too little.

use crate::scratch::SLOTS;
use crate::sentences::{Front, Ran, Refused};
use crate::shown::Shown;
use query_plan::{Plan, least};
use std::fmt::{Display, Formatter};
use std::{fmt, io};

// The bytes of a block of a check.
const CHECK_BLOCK: u64 = 8192;

// The greatest numbers that a plan's `block_len` and `page_blocks` may be, and the most memory of a plan.
const BLOCK_LEN: u32 = 65536;

const PAGE_BLOCKS: u32 = 256;

const PLAN_MEMORY: u64 = 2147483648;

// The least reservation was refused, by all memory of a check, by the query's own limit or by what queries before it left.
pub(crate) fn tell_reservation(
    rt: &impl Eprint,
    line: &Refused<'_>,
    ran: Ran<'_>,
) -> io::Result<()> {
    let front = ran.front(line.query);
    let (who, behind) = line.numbers.split_once(' ').unwrap_or((line.numbers, ""));
    let (wanted, room) = behind.split_once(' ').unwrap_or((behind, ""));
    match (ran, who) {
        (Ran::Check, _) => eprintln!(rt;
            "{front}it needs {wanted} bytes, and its memory has {room}: {} BLOCKS would do",
            wanted
                .parse::<u64>()
                .unwrap_or(u64::MAX)
                .div_ceil(CHECK_BLOCK)
        ),
        (_, "query") => eprintln!(rt;
            "{front}it needs {wanted} bytes, and its \"limit\" is {room}: a \"limit\" of {wanted} would do"
        ),
        _ => {
            let room = Room {
                bytes: room,
                is_first: line.query == Some(1),
            };
            let remedy = remedy_for(ran, line.query);
            eprintln!(rt; "{front}it needs {wanted} bytes, and {room}: {remedy}")
        }
    }
}

// What is left of a plan's memory.
#[derive(Clone, Copy)]
struct Room<'a> {
    bytes: &'a str,
    is_first: bool,
}

impl Display for Room<'_> {
    fn fmt<W: fmt::Write>(&self, f: &mut Formatter<W>) -> fmt::Result {
        match self.is_first {
            true => write!(f, "the plan's memory has {}", self.bytes),
            false => write!(
                f,
                "the queries before it left {} of the plan's memory",
                self.bytes
            ),
        }
    }
}

// What gives a query the memory that it lacks.
#[derive(Clone, Copy)]
enum Remedy {
    Blocks(u64),
    MoreBlocks,
    OwnPlan,
}

impl Display for Remedy {
    fn fmt<W: fmt::Write>(&self, f: &mut Formatter<W>) -> fmt::Result {
        match self {
            Remedy::Blocks(blocks) => write!(f, "{blocks} \"blocks\" would do"),
            Remedy::MoreBlocks => f.write_str("more \"blocks\" would do"),
            Remedy::OwnPlan => f.write_str("run it in a plan of its own"),
        }
    }
}

fn remedy_for(ran: Ran<'_>, number: Option<usize>) -> Remedy {
    let Ran::Plan { plan, .. } = ran else {
        return Remedy::MoreBlocks;
    };
    match bytes_up_to(plan, number) {
        Some(bytes) if bytes > PLAN_MEMORY => Remedy::OwnPlan,
        Some(bytes) => Remedy::Blocks(blocks_of(bytes, u64::from(plan.block_len))),
        None => Remedy::MoreBlocks,
    }
}

// What the queries up to this one reserve together, where memory isn't short. A query that passes its own limit reserves
// nothing.
fn bytes_up_to(plan: &Plan, number: Option<usize>) -> Option<u64> {
    if plan.block_len > BLOCK_LEN {
        return None;
    }
    let mut bytes = 0u64;
    for query in plan.queries.as_slice().get(..number?)? {
        if query.page_blocks > PAGE_BLOCKS {
            return None;
        }
        let least = least(query, plan.block_len);
        if least <= query.limit {
            bytes = bytes.saturating_add(least);
        }
    }
    Some(bytes)
}

// So many blocks have so many bytes.
fn blocks_of(bytes: u64, block_len: u64) -> u64 {
    match block_len {
        0 => bytes,
        _ => bytes.div_ceil(block_len),
    }
}

// The scratch slots were used up.
pub(crate) fn tell_scratch(rt: &impl Eprint, line: &Refused<'_>, ran: Ran<'_>) -> io::Result<()> {
    let front = ran.front(line.query);
    match ran {
        Ran::Plan { .. } | Ran::Unread { .. } => tell_quota(rt, front, slots_for(ran, line.query)),
        Ran::Count { file, .. } => eprintln!(rt;
            "{front}{} has more values than scratch holds: a plan with longer pages may do",
            Shown(file)
        ),
        Ran::Check => eprintln!(rt;
            "{front}the table has more groups than scratch holds: fewer GROUPS or more BLOCKS may do"
        ),
    }
}

// The quota that is sure to suffice for a query, and what the others leave.
#[derive(Clone, Copy)]
struct Slots {
    enough: u64,
    left: u64,
}

fn slots_for(ran: Ran<'_>, number: Option<usize>) -> Option<Slots> {
    let Ran::Plan { plan, .. } = ran else {
        return None;
    };
    let mut left = SLOTS as u64;
    for query in plan.queries.as_slice() {
        left = left.saturating_sub(u64::from(query.quota));
    }
    Some(Slots {
        enough: ran.enough(number)?,
        left: left.saturating_add(u64::from(ran.query(number)?.quota)),
    })
}

fn tell_quota(rt: &impl Eprint, front: Front<'_>, slots: Option<Slots>) -> io::Result<()> {
    match slots {
        Some(Slots { enough, left }) if enough <= left => eprintln!(rt;
            "{front}it used up its scratch slots: a \"quota\" of {enough} would do"
        ),
        Some(Slots { enough, .. }) if enough <= SLOTS as u64 => eprintln!(rt;
            "{front}it used up its scratch slots: a \"quota\" of {enough} would do in a plan of its own"
        ),
        Some(_) => eprintln!(rt;
            "{front}it used up its scratch slots: longer pages (\"page_blocks\"), or a \"quota\" of up to {SLOTS}, may do"
        ),
        None => eprintln!(rt; "{front}it used up its scratch slots: a higher \"quota\" may do"),
    }
}
