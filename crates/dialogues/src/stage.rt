//! A server, and who and what has come to it.
use crate::clients::{Caller, DialogueAnswer, compare_numbers, play_client};
use crate::fault::Fault;
use crate::line::{DialogueLine, number_and_rest};
use crate::records::{Arrived, record_of, told_record};
use access_list::address;
use catalog::Config;
use server_core::{Client, Server};
use sl_packet::Seq;
use std::alloc::Global;
use std::fs;

/// A server, and who and what has come to it, by their names.
#[derive(Drop)]
pub struct DialogueStage {
    alloc: Global,
    server: Server,
    callers: Vec<Caller>,
    records: Vec<Arrived>,
}

/// The configuration of a file.
fn config_in(rt: &HostRuntime, path: &str) -> Result<Config, Fault> {
    let text = fs::read(rt, path)?;
    let config = Config::read(rt.alloc(), text.as_slice())?;
    Ok(config)
}

impl DialogueStage {
    /// A new server with the configuration of a file.
    pub fn new(rt: &HostRuntime, path: &str) -> Result<DialogueStage, Fault> {
        let config = config_in(rt, path)?;
        let server = Server::new(rt.alloc(), config)?;
        Ok(DialogueStage {
            alloc: rt.alloc(),
            server,
            callers: Vec::new(rt.alloc()),
            records: Vec::new(rt.alloc()),
        })
    }

    /// The configuration of a file is read again, and refused with a number; 0 where it is taken.
    fn reload(&mut self, rt: &HostRuntime, path: &str, wanted: u8) -> DialogueAnswer {
        let config = config_in(rt, path)?;
        let got = match self.server.reload(config) {
            Ok(()) => 0,
            Err(fault) => fault.reason().number(),
        };
        compare_numbers(self.alloc, wanted as usize, got as usize)
    }

    /// What is done to the server.
    fn play_server(&mut self, rt: &HostRuntime, line: &DialogueLine) -> DialogueAnswer {
        match line.verb {
            "reload" => self.reload(rt, line.rest, 0),
            "refuse" => {
                let (number, path) = number_and_rest(line.rest)?;
                self.reload(rt, path, number)
            }
            _ => Err(Fault::Step),
        }
    }

    /// Gives a name to a client that came. A client that closed may have had it; one that is there may not.
    fn name_client(&mut self, name: &str, client: Client) -> Result<(), Fault> {
        for caller in self.callers.iter_mut() {
            if caller.name.as_str() == name {
                if !caller.is_closed {
                    return Err(Fault::Name);
                }
                caller.client = client;
                caller.is_closed = false;
                caller.hand.clear();
                return Ok(());
            }
        }
        self.callers.push(Caller {
            name: String::from_str(self.alloc, name)?,
            client,
            is_closed: false,
            hand: Vec::new(self.alloc),
        })?;
        Ok(())
    }

    /// A client comes from an address.
    fn open(&mut self, name: &str, text: &str) -> DialogueAnswer {
        let Some(address) = address(text.as_bytes()) else {
            return Err(Fault::Step);
        };
        let client = self.server.open(self.alloc, address)?;
        self.name_client(name, client)?;
        Ok(None)
    }

    /// A record arrives, and is taken.
    fn arrive(&mut self, name: &str, bytes: [u8; 512]) -> DialogueAnswer {
        match self.server.arrive(&bytes) {
            Ok(number) => {
                let name = String::from_str(self.alloc, name)?;
                self.records.push(Arrived {
                    name,
                    bytes,
                    number,
                })?;
                Ok(None)
            }
            Err(fault) => Ok(Some(fault.reason().number().to_string(self.alloc)?)),
        }
    }

    /// A record arrives, and is refused with a number: `32 arrive GE NONE -- BHZ 2024,60,0,0,0,0 100`.
    fn refuse(&mut self, text: &str) -> DialogueAnswer {
        let (wanted, line) = number_and_rest(text)?;
        let bytes = told_record(self.alloc, line)?;
        let got = match self.server.arrive(&bytes) {
            Ok(_) => 0,
            Err(fault) => fault.reason().number(),
        };
        compare_numbers(self.alloc, wanted as usize, got as usize)
    }

    /// The number that a record was given.
    fn compare_number(&self, name: &str, text: &str) -> DialogueAnswer {
        let record = record_of(self.records.as_slice(), name)?;
        let Some(wanted) = Seq::parse(text.as_bytes()) else {
            return Err(Fault::Step);
        };
        compare_numbers(
            self.alloc,
            wanted.value() as usize,
            record.number.value() as usize,
        )
    }

    /// What a client does or is handed.
    fn play_caller(&mut self, line: &DialogueLine) -> DialogueAnswer {
        for caller in self.callers.iter_mut() {
            if caller.name.as_str() == line.subject {
                return play_client(
                    self.alloc,
                    &mut self.server,
                    self.records.as_slice(),
                    caller,
                    line,
                );
            }
        }
        Err(Fault::Name)
    }

    /// What comes, or what is asked of what came.
    fn play_name(&mut self, line: &DialogueLine) -> DialogueAnswer {
        match line.verb {
            "open" => self.open(line.subject, line.rest),
            "arrive" | "arrive-hex" => {
                let bytes = told_record(self.alloc, line.tail)?;
                self.arrive(line.subject, bytes)
            }
            "refuse" => self.refuse(line.rest),
            "number" => self.compare_number(line.subject, line.rest),
            _ => self.play_caller(line),
        }
    }

    /// Plays a line.
    pub fn play(&mut self, rt: &HostRuntime, line: &DialogueLine) -> DialogueAnswer {
        if line.subject == "server" {
            self.play_server(rt, line)
        } else {
            self.play_name(line)
        }
    }
}
