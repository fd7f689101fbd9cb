//! The status port over sockets.
ghost use Rattle.std.specs.Prelude.{◌≡◌, [], All, IfOk};
ghost use Rattle.status_ports.specs.Doors.{AskersValue, IsHeldFor};

use crate::door::{Arrival, Askers, Door};
use crate::kept::KeptTexts;
use crate::places::{Scratch, give_up_all, place_for, seat, serve_all, step_all};
use crate::slot::Slot;
use access_list::AccessList;
use status_page::{StatusRequest, StatusValue, all_templates};
use std::alloc::{AllocError, Global};
use std::io;
use std::marker::Model;
use std::net::SocketAddrV4;

/// How many connections there are at a time, and how many are taken at one look.
const CONNECTIONS: usize = 8;

/// How many are looked at in one look, with those that are closed at once.
const AT_ONCE: usize = 64;

/// A request for which a text is to be made.
#[derive(Clone, Copy, Drop)]
pub struct Asked {
    pub request: StatusRequest,
}

/// Connections to the status port. In a contract it is who may ask: each connection that is held came from an address
/// of those who may.
#[derive(Drop)]
pub struct StatusPorts {
    door: Door,
    slots: Vec<Slot>,
    kept: KeptTexts,
    scratch: Scratch,
}

impl Model for StatusPorts {
    ghost use Rattle.std.specs.Prelude.{All};
    ghost use Rattle.status_ports.specs.Doors.{AskersValue, IsHeldFor};

    ghost Value = { AskersValue };

    ghost view = { λ p. p.door };

    ghost invariant = { λ p. All (IsHeldFor p.door) p.slots.items };
}

/// Places for as many connections as there may be.
fn slots_for(alloc: Global) -> Result<Vec<Slot>, AllocError>
    ensures { IfOk result (λ slots. (a : AskersValue) → All (IsHeldFor a) slots.items) }
{
    let mut slots = Vec::new(alloc);
    for _ in 0..CONNECTIONS {
        slots.push(Slot::new(alloc)?)?;
    }
    Ok(slots)
}

/// Who came.
#[derive(Clone, Copy, Drop)]
enum Taken {
    Nobody,
    Refused,
    Seated,
}

impl StatusPorts {
    /// Listens at an address, for those whom a list admits, or this machine alone without one. It fails with what the
    /// system says of the address, or for want of memory.
    pub fn listen(
        rt: &HostRuntime,
        alloc: Global,
        address: SocketAddrV4,
        list: Option<AccessList>,
    ) -> io::Result<StatusPorts>
        ensures { IfOk result (λ ports. ports ≡ record { list = list; name = [] }) }
    {
        let slots = slots_for(alloc)?;
        let askers = Askers {
            list,
            name: Vec::new(alloc),
        };
        let door = Door::open(rt, address, askers)?;
        let kept = KeptTexts::new(alloc)?;
        Ok(StatusPorts {
            door,
            slots,
            kept,
            scratch: Scratch {
                refusal: Vec::new(alloc),
                value: Vec::new(alloc),
            },
        })
    }

    /// By that name it may be asked too, besides addresses and `localhost`.
    pub fn take_name(&mut self, name: Vec<u8>)
        ensures { self.new ≡ record self.old { name = name.items } }
    {
        self.door.take_name(name);
    }

    /// The port that is listened on.
    pub fn port(&self) -> io::Result<u16> {
        self.door.port()
    }

    /// Takes a connection if one waits and there is a place for it. One that may not ask is closed with no byte.
    fn take(&mut self, now: u64) -> Taken
        ensures { self.new ≡ self.old }
    {
        let Some(place) = place_for(self.slots.as_slice()) else {
            return Taken::Nobody;
        };
        match self.door.next() {
            Arrival::Nobody => Taken::Nobody,
            Arrival::Refused => Taken::Refused,
            Arrival::Welcome(visitor) => {
                seat(
                    self.slots.as_mut_slice(),
                    place,
                    visitor,
                    now,
                    self.door.name(),
                );
                Taken::Seated
            }
        }
    }

    /// Takes the connections that wait, as many at most as there are places.
    fn take_waiting(&mut self, now: u64)
        ensures { self.new ≡ self.old }
    {
        let mut seated = 0usize;
        for _ in 0..AT_ONCE {
            match self.take(now) {
                Taken::Nobody => return,
                Taken::Refused => {}
                Taken::Seated => seated = seated.saturating_add(1),
            }
            if seated >= CONNECTIONS {
                return;
            }
        }
    }

    /// Looks once at each connection, and takes those that wait. Each request whose text was made less than a second
    /// ago is answered. Else one for which a text is to be made, if there is one. It never waits.
    pub fn look(&mut self, now: u64) -> Option<Asked>
        ensures { self.new ≡ self.old }
    {
        step_all(self.slots.as_mut_slice(), now, self.door.name());
        self.take_waiting(now);
        self.serve(now)
    }

    /// Answers each request whose text is kept. Else one for which a text is to be made, if there is one.
    fn serve(&mut self, now: u64) -> Option<Asked>
        ensures { self.new ≡ self.old }
    {
        let missing = serve_all(
            self.slots.as_mut_slice(),
            &self.kept,
            &mut self.scratch,
            now,
            self.door.name(),
        );
        match missing {
            Some(request) => Some(Asked { request }),
            None => None,
        }
    }

    /// Makes the text for a request by what is told of the server, and answers all who asked for it. Without memory for
    /// it they are closed.
    pub fn answer(&mut self, asked: Asked, status: &StatusValue<'_>, now: u64)
        ensures { self.new ≡ self.old }
    {
        let value = &mut self.scratch.value;
        let target = asked.request.target;
        match self.kept.make(value, &all_templates(), target, status, now) {
            Ok(()) => {
                let _missing = self.serve(now);
            }
            Err(_) => give_up_all(self.slots.as_mut_slice()),
        }
    }

    /// What was told so far is told no more: each text is made again for whoever asks next.
    pub fn forget(&mut self)
        ensures { self.new ≡ self.old }
    {
        self.kept.forget();
    }
}
