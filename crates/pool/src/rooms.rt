//! Memory for sessions, taken before they come.
ghost use Rattle.std.specs.Prelude.{◌≡◌, [], IfOk, length};
ghost use Rattle.std.specs.List.{All};
ghost use Rattle.pool.specs.Admitting.{AreFew, HasRoomFor};
ghost use Rattle.pool.specs.Rooms.{IsEmptyRoom, IsRoom};

use crate::accounts::ClientAccounts;
use crate::ask::Ask;
use reservation_tree::Memory;
use session_table::MAX_SESSIONS;
use std::alloc::Global;

// The accounts of so many sessions, and a list with room for them.
pub struct Room<S> {
    pub(crate) accounts: Vec<ClientAccounts>,
    pub(crate) sessions: Vec<S>,
}

// How many sessions an ask has at most, if it isn't refused.
pub(crate) fn most_of(asks: &[Ask]) -> u32
    ensures { AreFew result asks.now }
{
    let mut most = 0;
    for ask in asks {
        let few = ask.count.min(MAX_SESSIONS);
        if most < few {
            most = few;
        }
    }
    most
}

// So many lists, each with room for so many numbers.
pub(crate) fn open_slates(alloc: Global, count: usize, most: u32) -> Result<Vec<Vec<u32>>, Memory>
    ensures count { IfOk result (λ slates. length slates.items ≡ count) }
    ensures each { IfOk result (λ slates. All (HasRoomFor most) slates.items) }
{
    let mut slates = Vec::with_capacity(alloc, count)?;
    for _i in 0..count {
        let slate = Vec::with_capacity(alloc, most as usize)?;
        slates.push_reserved(slate);
    }
    Ok(slates)
}

fn open_room<S>(alloc: Global, most: u32) -> Result<Room<S>, Memory>
    ensures { IfOk result (IsRoom most) }
{
    let mut accounts = Vec::with_capacity(alloc, most as usize)?;
    for _i in 0..most {
        let none = ClientAccounts::open(alloc)?;
        accounts.push_reserved(none);
    }
    let sessions = Vec::with_capacity(alloc, most as usize)?;
    Ok(Room { accounts, sessions })
}

// So many rooms, each for so many sessions.
pub(crate) fn open_rooms<S>(alloc: Global, count: usize, most: u32) -> Result<Vec<Room<S>>, Memory>
    ensures count { IfOk result (λ rooms. length rooms.items ≡ count) }
    ensures each { IfOk result (λ rooms. All (IsRoom most) rooms.items) }
{
    let mut rooms = Vec::with_capacity(alloc, count)?;
    for _i in 0..count {
        match open_room(alloc, most) {
            Ok(room) => rooms.push_reserved(room),
            Err(_) => {
                close_rooms(rooms);
                return Err(Memory);
            }
        }
    }
    Ok(rooms)
}

// Rooms that weren't used.
pub(crate) fn close_rooms<S>(mut rooms: Vec<Room<S>>)
    requires { All IsEmptyRoom rooms.items }
{
    for _i in 0..rooms.len() {
        let room = rooms.pop().unwrap();
        close_room(room);
    }
    rooms.destroy_empty();
}

pub(crate) fn close_room<S>(room: Room<S>)
    requires { IsEmptyRoom room }
{
    let Room {
        accounts: _,
        sessions,
    } = room;
    sessions.destroy_empty();
}
