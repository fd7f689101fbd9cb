//! The status port of a server: between its turns it is looked at, and what is asked is answered.
ghost use Rattle.std.specs.Prelude.{◌≡◌, IfOk, IfSome, is_some};
ghost use Rattle.std.specs.Option.{unwrap_or};
ghost use Rattle.protocol.specs.Catalog.{stations_of};
ghost use Rattle.config_explained.specs.ConfigTexts.{keys_of};
ghost use Rattle.config_explained.specs.Silences.{silences};
ghost use Rattle.job_serve.specs.Admitting.{AsksBy, FromList};
ghost use Rattle.job_serve.specs.Limits.{limit_by, limits_by};

use crate::counts::SharedCounts;
use crate::listening::unlistened;
use crate::opening::Served;
use crate::operator::no_memory;
use access_list::AccessList;
use catalog::Config;
use command_line::{ServeOptions, VERSION};
use config_explained::{ConfigText, Silence, silences_of, users_of};
use event_loop::Loop;
use incidents::Incident;
use job_base::{ServerAddress, refused_list, server_of};
use ports::Ports;
use server_watch::{Listed, Told, Watch};
use sl_time::Tick;
use status_page::Target;
use status_ports::{Asked, StatusPorts};
use std::alloc::{AllocError, Global};
use std::net::Ipv4Addr;
use std::rt::Clock;
use std::time::Duration;

/// How many milliseconds lie between two looks at the port, and so between two answers.
const PACE: u64 = 10;

/// After how many seconds without a record a station is silent, if the command line doesn't say it.
const SILENT: usize = 600;

/// Where the status port is to be, from where it may be asked, and by which name besides addresses and `localhost`.
#[derive(Drop)]
pub struct StatusDoor<'a> {
    address: ServerAddress<'a>,
    list: Option<AccessList>,
    name: Vec<u8>,
}

impl StatusDoor<'_> {
    /// The address at which it is to be.
    pub fn address(&self) -> Ipv4Addr {
        self.address.endpoint.address
    }
}

/// From where a status port may be asked, by the list that a word spells; this machine alone without one.
fn list_of<'a>(alloc: Global, word: Option<&'a str>) -> Result<Option<AccessList>, Incident<'a>>
    ensures { IfOk result (λ list. FromList word.entry list) }
{
    match word {
        Some(word) => match AccessList::parse(alloc, word.as_bytes()) {
            Ok(list) => Ok(Some(list)),
            Err(fault) => Err(refused_list(alloc, word, fault)),
        },
        None => Ok(None),
    }
}

/// By which name it may be asked, besides addresses and `localhost`.
fn name_of<'a>(alloc: Global, word: Option<&'a str>) -> Result<Vec<u8>, Incident<'a>>
    ensures { IfOk result (λ name. AsksBy word.entry name.items) }
{
    let Some(word) = word else {
        return Ok(Vec::new(alloc));
    };
    match word.as_bytes().to_vec(alloc) {
        Ok(name) => Ok(name),
        Err(_) => Err(no_memory()),
    }
}

/// Where the status port is to be, and who may ask it, if the words of a command line name one.
pub fn status_door<'a>(
    alloc: Global,
    options: &ServeOptions<'a>,
) -> Result<Option<StatusDoor<'a>>, Incident<'a>>
    ensures named { IfOk result (λ door. is_some door ≡ is_some options.now.status) }
    ensures list { IfOk result (λ door. IfSome door (λ d. FromList options.now.status_from d.list)) }
    ensures name { IfOk result (λ door. IfSome door (λ d. AsksBy options.now.status_name d.name.items)) }
{
    let Some(word) = options.status else {
        return Ok(None);
    };
    let address = server_of(word)?;
    let list = list_of(alloc, options.status_from)?;
    let name = name_of(alloc, options.status_name)?;
    Ok(Some(StatusDoor {
        address,
        list,
        name,
    }))
}

/// Listens there, if there is to be a status port.
pub fn listen_for_status<'a>(
    rt: &HostRuntime,
    door: Option<StatusDoor<'a>>,
) -> Result<Option<Box<StatusPorts>>, Incident<'a>> {
    let Some(door) = door else {
        return Ok(None);
    };
    match Box::new(rt.alloc(), listen_at(rt, door)?) {
        Ok(ports) => Ok(Some(ports)),
        Err(_) => Err(no_memory()),
    }
}

/// Listens where a status port is to be.
fn listen_at<'a>(rt: &HostRuntime, door: StatusDoor<'a>) -> Result<StatusPorts, Incident<'a>>
    ensures { IfOk result (λ ports. ports ≡ record { list = door.entry.list; name = door.entry.name.items }) }
{
    let StatusDoor {
        address,
        list,
        name,
    } = door;
    let at = address.endpoint.socket_address();
    match StatusPorts::listen(rt, rt.alloc(), at, list) {
        Ok(mut ports) => {
            ports.take_name(name);
            Ok(ports)
        }
        Err(reason) => Err(unlistened(address, reason)),
    }
}

/// A status port, and what is seen of the server.
#[derive(Drop)]
pub struct StatusDesk<'l> {
    ports: Box<StatusPorts>,
    watch: Box<Watch>,
    counts: &'l SharedCounts,
    began: Option<Tick>,
    silent_after: u64,
    /// Who may use each station, a text each.
    users: Vec<Vec<u8>>,
    /// After how many seconds without a record each is silent; without a number never.
    limits: Vec<Option<u64>>,
    /// When it was looked at last.
    looked: Option<u64>,
}

/// Who may use each station of a configuration, a text each; without memory for them none.
fn users_in(alloc: Global, read: &ConfigText) -> Vec<Vec<u8>> {
    match users_of(alloc, read) {
        Ok(users) => users,
        Err(_) => Vec::new(alloc),
    }
}

/// After how many seconds without a record a station is silent, by what the configuration says of it, and by what holds
/// if that says nothing; never without a number.
fn limit_by(silence: Silence, server: u64) -> Option<u64>
    ensures { result ≡ limit_by server silence }
{
    match silence {
        Silence::AsServer => Some(server),
        Silence::Never => None,
        Silence::After(seconds) => Some(u64::from(seconds)),
    }
}

/// The same of all stations.
fn limits_by(
    alloc: Global,
    silences: &[Silence],
    server: u64,
) -> Result<Vec<Option<u64>>, AllocError>
    ensures { IfOk result (λ limits. limits.items ≡ limits_by server silences.now) }
{
    let mut limits = Vec::new(alloc);
    for silence in silences {
        limits.push(limit_by(*silence, server))?;
    }
    Ok(limits)
}

/// The same of the stations of a configuration's text.
fn limits_in(alloc: Global, read: &ConfigText, server: u64) -> Result<Vec<Option<u64>>, AllocError>
    ensures { IfOk result (λ limits.
        limits.items ≡ limits_by server (silences (keys_of read.now.text) (stations_of read.now.config))) }
{
    let silences = silences_of(alloc, read)?;
    limits_by(alloc, silences.as_slice(), server)
}

/// The moment that a clock tells, as a length of time since 1970.
fn tick_of(now: Duration) -> Option<Tick> {
    let ticks = i64::try_from(now.as_micros() / 100).ok()?;
    Some(Tick::new(ticks))
}

/// What is seen of the stations of a configuration.
fn watch_of(alloc: Global, config: &Config) -> Result<Box<Watch>, AllocError> {
    match Box::new(alloc, Watch::new(alloc, config)?) {
        Ok(watch) => Ok(watch),
        Err(_) => Err(AllocError),
    }
}

impl<'l> StatusDesk<'l> {
    /// A desk at a port that is listened on, for a server of that configuration that begins now. Only memory can lack.
    pub fn new(
        rt: &HostRuntime,
        alloc: Global,
        ports: Box<StatusPorts>,
        served: &Served<'_>,
        silent: Option<usize>,
        counts: &'l SharedCounts,
    ) -> Result<StatusDesk<'l>, AllocError>
        ensures silent { IfOk result (λ desk. desk.silent_after ≡ unwrap_or silent 600) }
        ensures limits { IfOk result (λ desk. desk.limits.items
            ≡ limits_by (unwrap_or silent 600) (silences (keys_of served.now.files.read.text)
            (stations_of served.now.files.read.config))) }
        ensures ports { IfOk result (λ desk. desk.ports ≡ ports) }
    {
        let watch = watch_of(alloc, &served.config)?;
        let silent_after = silent.unwrap_or(SILENT) as u64;
        let limits = limits_in(alloc, &served.files.read, silent_after)?;
        let began = match rt.since_1970() {
            Ok(now) => tick_of(now),
            Err(_) => None,
        };
        Ok(StatusDesk {
            ports,
            watch,
            counts,
            began,
            silent_after,
            users: users_in(alloc, &served.files.read),
            limits,
            looked: None,
        })
    }

    /// What its journal counts.
    pub fn counts(&self) -> &'l SharedCounts {
        self.counts
    }

    /// A configuration comes into force. Without memory for how long its stations may be silent, that stays as it was.
    pub fn take_config(&mut self, alloc: Global, read: &ConfigText) {
        self.users = users_in(alloc, read);
        if let Ok(limits) = limits_in(alloc, read, self.silent_after) {
            self.limits = limits;
        }
        self.ports.forget();
    }

    /// A turn ends, at a time in microseconds.
    pub fn end_turn(&self, now: u64) {
        self.counts.end_turn(now);
    }

    /// Looks at the server and at the port, at a time in milliseconds since the server began. What was told less than a
    /// second ago is told again, and of the other texts that are asked for one is made. It never waits.
    pub fn look<P: Ports>(&mut self, alloc: Global, now: u64, server: &Loop<P>) {
        match self.looked {
            Some(looked) if now.saturating_sub(looked) < PACE => return,
            _ => self.looked = Some(now),
        }
        self.watch.note(now, server.rings());
        if let Some(asked) = self.ports.look(now) {
            self.answer(alloc, now, server, asked);
        }
    }

    /// Makes the text for a request, and answers all who asked for it. Without memory for what is told, they are not
    /// answered, and closed when their time is over.
    fn answer<P: Ports>(&mut self, alloc: Global, now: u64, server: &Loop<P>, asked: Asked) {
        let Some(counts) = self.counts.counts() else {
            return;
        };
        let told = Told {
            version: VERSION.as_bytes(),
            began: self.began,
            silent_after: self.silent_after,
            refusals: counts.refusals.as_slice(),
            away: counts.away.as_slice(),
            client_bytes: counts.sent,
            turns: counts.turns.times(),
        };
        let is_by_age = matches!(asked.request.target, Target::PageByAge);
        self.watch.gather(now, server, counts.lost);
        let listed = Listed {
            users: self.users.as_slice(),
            limits: self.limits.as_slice(),
        };
        if let Ok(stations) = self.watch.stations(alloc, now, server, listed, is_by_age) {
            let status = self.watch.status(now, server, told, stations.as_slice());
            self.ports.answer(asked, &status, now);
        }
    }
}
