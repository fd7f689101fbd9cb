//! What the tests of several crates share: configurations, what HELLO is answered there, and the one maker of records.
//! Nothing but that.
#![tactic(auto)]

mod records;

pub use records::{RecordOf, made};

/// Three stations: GE APE, which is open to addresses that begin with 10, and GE WLF and XX APE, which are open to
/// everybody. They hold 4, 2 and 1 records, and count from 000000, FFFFFE and 000000.
pub const CENTRE: &[u8] = br#"title = "Test Centre"
max_connections = 8

[[station]]
network = "GE"
code = "APE"
description = "Island"
capacity = 4
first = "000000"
access = "10.0.0.0/8"

[[station]]
network = "GE"
code = "WLF"
description = "Forest"
capacity = 2
first = "FFFFFE"

[[station]]
network = "XX"
code = "APE"
description = "Vault"
capacity = 1
"#;

/// The same, but GE WLF is open to addresses that begin with 10 alone.
pub const FOREST_CLOSED: &[u8] = br#"title = "Test Centre"
max_connections = 8

[[station]]
network = "GE"
code = "APE"
description = "Island"
capacity = 4
access = "10.0.0.0/8"

[[station]]
network = "GE"
code = "WLF"
description = "Forest"
capacity = 2
first = "FFFFFE"
access = "10.0.0.0/8"

[[station]]
network = "XX"
code = "APE"
description = "Vault"
capacity = 1
"#;

/// The same as `FOREST_CLOSED`, but GE APE holds one record more.
pub const ISLAND_LARGER: &[u8] = br#"title = "Test Centre"
max_connections = 8

[[station]]
network = "GE"
code = "APE"
description = "Island"
capacity = 5
access = "10.0.0.0/8"

[[station]]
network = "GE"
code = "WLF"
description = "Forest"
capacity = 2
first = "FFFFFE"
access = "10.0.0.0/8"

[[station]]
network = "XX"
code = "APE"
description = "Vault"
capacity = 1
"#;

/// What HELLO is answered under each of them.
pub const GREETING: &[u8] = b"SeedLink v3.0 (station access)\r\nTest Centre\r\n";
