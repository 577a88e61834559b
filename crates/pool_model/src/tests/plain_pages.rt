//! The events of pages and buffers over plain maps.

use crate::Event;
use crate::tests::plain_pool::{Buffer, Page, Place, PlainPool};
use std::alloc::AllocError;

impl PlainPool {
    pub fn allows_pages(&self, maker: u32, event: &Event) -> bool {
        match event {
            Event::Create {
                page,
                client,
                blocks,
                key: _,
            } => {
                *page == self.next_name
                    && *page < u64::MAX
                    && self.is_client_of(maker, client.number())
                    && self.can_take(client.number(), *blocks)
            }
            Event::PinHere { page } => {
                self.own_page(maker, *page, Place::Dirty).is_some()
                    || self
                        .own_page(maker, *page, Place::Clean)
                        .is_some_and(|x| self.has_room(x.client, self.len_of(x.blocks)))
            }
            Event::PinLoad { page } => self
                .own_page(maker, *page, Place::Evicted)
                .is_some_and(|x| self.can_take(x.client, x.blocks)),
            Event::PinAgain { page } => self
                .own_pins(maker, *page)
                .is_some_and(|(x, _)| self.has_room(x.client, self.len_of(x.blocks))),
            Event::UnpinOnce { page } => self
                .own_pins(maker, *page)
                .is_some_and(|(_, count)| count >= 2),
            Event::Unpin { page, content } => self
                .own_page(maker, *page, Place::Pinned(1))
                .is_some_and(|x| {
                    content.as_slice().len() as u64 == self.len_of(x.blocks)
                        && (x.has_slots || x.blocks <= self.free_slots(maker))
                }),
            Event::UnpinRefused { page } => self
                .own_page(maker, *page, Place::Pinned(1))
                .is_some_and(|x| !x.has_slots && self.free_slots(maker) < x.blocks),
            Event::Extract { page, buffer } => {
                self.own_page(maker, *page, Place::Pinned(1)).is_some()
                    && !self.buffers.contains_key(buffer)
            }
            Event::Destroy { page } => self.pages.get(page).is_some_and(|x| {
                x.session == maker && !matches!(x.place, Place::Flying(_) | Place::Loading)
            }),
            _ => false,
        }
    }

    pub fn take_pages(&mut self, maker: u32, event: &Event) -> Result<(), AllocError> {
        match event {
            Event::Create {
                page,
                client,
                blocks,
                key: _,
            } => {
                let new = Page {
                    session: maker,
                    client: client.number(),
                    blocks: *blocks,
                    place: Place::Pinned(1),
                    has_slots: false,
                    version: 0,
                };
                self.pages.insert(*page, new)?;
                self.next_name = self.next_name.saturating_add(1);
            }
            Event::PinHere { page } => {
                self.unqueue(*page);
                self.put(*page, Place::Pinned(1));
            }
            Event::PinLoad { page } => self.put(*page, Place::Loading),
            Event::PinAgain { page } => {
                if let Some((_, count)) = self.own_pins(maker, *page) {
                    self.put(*page, Place::Pinned(count.saturating_add(1)));
                }
            }
            Event::UnpinOnce { page } => {
                if let Some((_, count)) = self.own_pins(maker, *page) {
                    self.put(*page, Place::Pinned(count.saturating_sub(1)));
                }
            }
            Event::Unpin { page, .. } => {
                self.dirty.push(*page)?;
                self.put(*page, Place::Dirty);
                if let Some(found) = self.pages.get_mut(page) {
                    found.has_slots = true;
                }
            }
            Event::Extract { page, buffer } => {
                if let Some(found) = self.pages.remove(page) {
                    let loan = Buffer {
                        client: found.client,
                        blocks: found.blocks,
                    };
                    self.buffers.insert(*buffer, loan)?;
                }
            }
            Event::Destroy { page } => {
                self.unqueue(*page);
                self.pages.remove(page);
            }
            _ => {}
        }
        Ok(())
    }

    pub fn allows_buffers(&self, maker: u32, event: &Event) -> bool {
        match event {
            Event::Alloc {
                buffer,
                client,
                blocks,
            } => {
                !self.buffers.contains_key(buffer)
                    && self.is_client_of(maker, client.number())
                    && self.can_take(client.number(), *blocks)
            }
            Event::Free { buffer } => self
                .buffers
                .get(buffer)
                .is_some_and(|x| self.is_client_of(maker, x.client)),
            Event::MoveBuffer { buffer, to } => self.buffers.get(buffer).is_some_and(|x| {
                self.is_client_of(maker, x.client)
                    && self.is_client_of(maker, to.number())
                    && x.client != to.number()
                    && self.has_room(to.number(), self.len_of(x.blocks))
            }),
            _ => false,
        }
    }

    pub fn take_buffers(&mut self, event: &Event) -> Result<(), AllocError> {
        match event {
            Event::Alloc {
                buffer,
                client,
                blocks,
            } => {
                let new = Buffer {
                    client: client.number(),
                    blocks: *blocks,
                };
                self.buffers.insert(*buffer, new)?;
            }
            Event::Free { buffer } => {
                self.buffers.remove(buffer);
            }
            Event::MoveBuffer { buffer, to } => {
                if let Some(found) = self.buffers.get_mut(buffer) {
                    found.client = to.number();
                }
            }
            _ => {}
        }
        Ok(())
    }
}
