//! Buffers that are no page's.

use super::page_steps;
use super::steps::{self, Pool};
use std::alloc::Global;
use std::process::Abort;
use store_api::{Client, Loan};

fn assert_charges(rt: &impl Abort, pool: &Pool, a: &Client, b: &Client, bytes: (u64, u64)) {
    steps::assert_charge(rt, pool, a, bytes.0);
    steps::assert_charge(rt, pool, b, bytes.1);
}

// A page of the client's that became a loan, with a 9 in front.
fn extracted(rt: &impl Abort, alloc: Global, pool: &mut Pool, c: &Client) -> Loan {
    let (page, mut buf) = page_steps::create(rt, alloc, pool, c, 1);
    page_steps::put(rt, &mut buf, 9);
    let loan = page_steps::extract(rt, pool, page, buf);
    assert_eq!(rt; page_steps::front(rt, loan.buf()), 9);
    loan
}

// The other client gets it, and it is freed.
fn handed(rt: &impl Abort, pool: &mut Pool, a: &Client, b: &Client, loan: Loan) {
    assert_charges(rt, pool, a, b, (64, 0));
    let loan = page_steps::move_loan(rt, pool, loan, b);
    assert_eq!(rt; page_steps::front(rt, loan.buf()), 9);
    assert_charges(rt, pool, a, b, (0, 64));
    page_steps::free(rt, pool, b.session(), loan);
    assert_charges(rt, pool, a, b, (0, 0));
}

// A loan of two blocks that is no page's.
fn made(rt: &impl Abort, alloc: Global, pool: &mut Pool, c: &Client) {
    let loan = page_steps::alloc_loan(rt, alloc, pool, c, 2, &mut page_steps::none_gone(rt, alloc));
    assert_eq!(rt;
        (loan.buf().len(), page_steps::front(rt, loan.buf())),
        (128, 0)
    );
    steps::assert_charge(rt, pool, c, 128);
    page_steps::free(rt, pool, c.session(), loan);
}

#[test]
fn a_buffer_is_charged_to_one_client_until_it_is_freed(rt: HostRuntime) {
    let slots = steps::slots(&rt, rt.alloc(), 4, &[]);
    let (mut pool, s, a) = steps::setting(&rt, rt.alloc(), false, 4, slots, 4, 128);
    let b = steps::client(&rt, &mut pool, s, 64);
    let loan = extracted(&rt, rt.alloc(), &mut pool, &a);
    handed(&rt, &mut pool, &a, &b, loan);
    made(&rt, rt.alloc(), &mut pool, &a);
    a.into_tracker();
    b.into_tracker();
    steps::set_aside(pool);
}
