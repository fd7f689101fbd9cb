//! The configurations: each as the text that the server reads, and as the table that the plain server goes by.
use std::net::Ipv4Addr;
use test_centre::CENTRE;

/// A station.
#[derive(Drop)]
pub struct Site {
    pub network: &'static [u8],
    pub code: &'static [u8],
    pub description: &'static [u8],
    pub capacity: usize,
    pub first: usize,
}

/// Which of the three addresses may use each station.
pub type Seen = &'static [[bool; 3]];

#[derive(Clone, Copy, Drop)]
pub struct Centre {
    pub text: &'static [u8],
    pub title: &'static [u8],
    pub sites: &'static [Site],
    /// Which of the three addresses may use each station by the lists of the text.
    pub seen: Seen,
}

/// The addresses that clients connect from.
pub fn address(place: usize) -> Ipv4Addr {
    match place {
        0 => Ipv4Addr::new(10, 0, 0, 7),
        1 => Ipv4Addr::new(172, 16, 0, 9),
        _ => Ipv4Addr::new(192, 168, 1, 1),
    }
}

/// Three stations, of which the first is hidden from two addresses, and two have one code.
pub static ISLAND: Centre = Centre {
    text: CENTRE,
    title: b"Test Centre",
    sites: &[
        Site {
            network: b"GE",
            code: b"APE",
            description: b"Island",
            capacity: 4,
            first: 0,
        },
        Site {
            network: b"GE",
            code: b"WLF",
            description: b"Forest",
            capacity: 2,
            first: 0xFFFFFE,
        },
        Site {
            network: b"XX",
            code: b"APE",
            description: b"Vault",
            capacity: 1,
            first: 0,
        },
    ],
    seen: &[[true, false, false], [true, true, true], [true, true, true]],
};

/// Two stations with lists of their own; the third address may use none.
pub static PAIR: Centre = Centre {
    text: br#"title = "P"
access = "0.0.0.0/0"

[[station]]
network = "A"
code = "S"
description = ""
capacity = 1
first = "ffffff"
access = "172.16.0.9"

[[station]]
network = "B"
code = "S"
description = "Two"
capacity = 3
first = "FFFFFD"
access = "10.0.0.7, 172.16.0.0/12"
"#,
    title: b"P",
    sites: &[
        Site {
            network: b"A",
            code: b"S",
            description: b"",
            capacity: 1,
            first: 0xFFFFFF,
        },
        Site {
            network: b"B",
            code: b"S",
            description: b"Two",
            capacity: 3,
            first: 0xFFFFFD,
        },
    ],
    seen: &[[false, true, false], [true, true, false]],
};

/// Four stations, two of one code; the server's list leaves out the second address, and one station is for nobody.
pub static COAST: Centre = Centre {
    text: br#"title = "Coast"
access = "10.0.0.0/255.0.0.0 192.168.1.1"

[[station]]
network = "IU"
code = "KONO"
description = "shut"
capacity = 2
first = "1F"
access = ""

[[station]]
network = "NO"
code = "KONO"
description = "Kongsberg"
capacity = 2
first = "FFFFFE"

[[station]]
network = "NO"
code = "BER"
description = "Bergen"
capacity = 3
first = "FFFFFC"
access = "0.0.0.0/0"

[[station]]
network = "NO"
code = "HAMAR"
description = "Hamar"
capacity = 1
first = "FE"
access = "172.16.0.9/255.255.255.255, 192.168.0.0/16"
"#,
    title: b"Coast",
    sites: &[
        Site {
            network: b"IU",
            code: b"KONO",
            description: b"shut",
            capacity: 2,
            first: 0x1F,
        },
        Site {
            network: b"NO",
            code: b"KONO",
            description: b"Kongsberg",
            capacity: 2,
            first: 0xFFFFFE,
        },
        Site {
            network: b"NO",
            code: b"BER",
            description: b"Bergen",
            capacity: 3,
            first: 0xFFFFFC,
        },
        Site {
            network: b"NO",
            code: b"HAMAR",
            description: b"Hamar",
            capacity: 1,
            first: 0xFE,
        },
    ],
    seen: &[
        [false, false, false],
        [true, false, true],
        [true, true, true],
        [false, true, true],
    ],
};

/// The configuration of a short list.
pub fn centre_of(list: u64) -> Centre {
    match list % 3 {
        0 => ISLAND,
        1 => PAIR,
        _ => COAST,
    }
}
