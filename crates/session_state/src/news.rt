//! What there is to tell of a client's negotiation.
//!
//! A session says what it decided, so that nobody has to read its client's lines a second time. It keeps the last of it
//! alone: whoever wants to hear of all asks after each call that reads lines, since one such call refuses at most one
//! station or begins a transfer.
ghost use Rattle.std.specs.Prelude.{◌≡◌, option_map, slice_index_or};
ghost use Rattle.session_state.specs.NewsValues.{asked_by, cut_code};

/// A station as STATION asked for it: the first eight bytes of each word, with spaces after a shorter one. No station
/// has codes of more than five bytes, so that one that is cut off is told from all that there are.
#[derive(Clone, Copy)]
pub struct AskedStation {
    pub station: [u8; 8],
    /// None if the client named no network.
    pub network: Option<[u8; 8]>,
}

/// What there is to tell.
#[derive(Clone, Copy)]
pub enum News {
    /// STATION was answered ERROR: the client sees no such station.
    NoStation(AskedStation),
    /// A transfer of the named stations that have an action begins.
    Begins,
}

/// The byte of a word at a place, or a space after its end.
fn byte_at(word: &[u8], place: usize) -> u8
    ensures { result ≡ slice_index_or word.now place 32 }
{
    match word.get(place) {
        Some(byte) => *byte,
        None => b' ',
    }
}

/// The first eight bytes of a word, with spaces after a shorter one.
fn cut_code(word: &[u8]) -> [u8; 8]
    ensures { result ≡ cut_code word.now }
{
    [
        byte_at(word, 0),
        byte_at(word, 1),
        byte_at(word, 2),
        byte_at(word, 3),
        byte_at(word, 4),
        byte_at(word, 5),
        byte_at(word, 6),
        byte_at(word, 7),
    ]
}

/// A network's code, if one was named.
fn cut_network(network: Option<&[u8]>) -> Option<[u8; 8]>
    ensures { result ≡ option_map cut_code (option_map (λ n. n.now) network.entry) }
{
    match network {
        Some(word) => Some(cut_code(word)),
        None => None,
    }
}

impl AskedStation {
    /// The station that these words ask for.
    pub fn of(station: &[u8], network: Option<&[u8]>) -> AskedStation
        ensures { result ≡ asked_by station.now (option_map (λ n. n.now) network.entry) }
    {
        AskedStation {
            station: cut_code(station),
            network: cut_network(network),
        }
    }
}
