//! The page for people: HTML that needs no script, in light or dark colours by what the reader's system prefers.
use crate::place::Place;
use crate::template::Piece::{self, Text, Value};
use crate::template::{Chosen, Section, StationRows};

/// How the page looks.
const STYLE: &[u8] = b":root{color-scheme:light dark;--ink:#1b1f24;--dim:#59636e;--line:#d6dbe1;\
    --ground:#fff;--alarm:#fde8e6;--bar:#2a6fb0}\
    @media(prefers-color-scheme:dark){:root{--ink:#e6e9ec;--dim:#9aa4af;--line:#353c45;--ground:#14181d;\
    --alarm:#4a1f1c;--bar:#6fb1ec}}\
    *{box-sizing:border-box}\
    body{margin:0 auto;max-width:90rem;padding:1rem;font:15px/1.45 system-ui,sans-serif;color:var(--ink);\
    background:var(--ground)}\
    h1{font-size:1.35rem;margin:0}h2{font-size:1.05rem;margin:1.6rem 0 .4rem}\
    p{margin:.2rem 0;color:var(--dim)}a{color:inherit}\
    ul{display:flex;flex-wrap:wrap;gap:.4rem 1.4rem;margin:.8rem 0;padding:0;list-style:none;color:var(--dim)}\
    b{color:var(--ink)}.wide{overflow-x:auto}table{border-collapse:collapse;width:100%}\
    th,td{padding:.3rem .6rem;border-bottom:1px solid var(--line);text-align:left;white-space:nowrap;\
    vertical-align:middle}\
    th{font-weight:600;color:var(--dim)}.n{text-align:right;font-variant-numeric:tabular-nums}\
    .silent td{background:var(--alarm)}.silent .age::before{content:'silent, ';font-weight:600}\
    .who{white-space:normal;min-width:7rem;max-width:18rem;overflow-wrap:anywhere}\
    svg{display:block;width:120px;height:24px;fill:var(--bar)}small{display:block;color:var(--dim)}\
    @media(max-width:640px){body{padding:.6rem;font-size:13px}.minor{display:none}svg{width:56px}\
    th,td{padding:.3rem .25rem}th,small{white-space:normal}}";

/// What stands above the table of stations, but for connections that were turned away.
const TOP: &[Piece] = &[
    Text(b"<!DOCTYPE html>\n<html lang='en'><head><meta charset='utf-8'>"),
    Text(b"<meta name='viewport' content='width=device-width,initial-scale=1'>"),
    Text(b"<meta http-equiv='refresh' content='10'><title>"),
    Value(Place::Title),
    Text(b"</title><style>"),
    Text(STYLE),
    Text(b"</style></head>\n<body><h1>"),
    Value(Place::Title),
    Text(b"</h1>\n<p>"),
    Value(Place::Version),
    Text(b", serving for "),
    Value(Place::PassedAge),
    Text(b"</p>\n<p>It looks since "),
    Value(Place::Since),
    Text(b": what came before that is not told.</p>\n<ul><li><b>"),
    Value(Place::OpenClients),
    Text(b"</b> clients</li><li><b>"),
    Value(Place::OpenFeeds),
    Text(b"</b> feeds</li><li><b>"),
    Value(Place::Records),
    Text(b"</b> records taken</li><li><b>"),
    Value(Place::Refused),
    Text(b"</b> refused</li><li><b>"),
    Value(Place::SentBytes),
    Text(b"</b> bytes sent</li>"),
    Text(b"<li><b>"),
    Value(Place::HeardCount),
    Text(b"</b> stations ok</li><li><b>"),
    Value(Place::WaitingCount),
    Text(b"</b> waiting</li><li><b>"),
    Value(Place::SilentCount),
    Text(b"</b> silent</li>"),
];

/// How many connections were turned away for a reason.
const AWAY: &[Piece] = &[
    Text(b"<li><b>"),
    Value(Place::Count),
    Text(b"</b> turned away: "),
    Value(Place::Name),
    Text(b"</li>"),
];

/// The head of the table of stations.
const STATIONS: &[Piece] = &[
    Text(b"</ul>\n<h2>Stations</h2><p>Red: silent, since nothing came for "),
    Value(Place::SilentAfter),
    Text(b" s, or for the time that the configuration has for the station. In the order of the "),
    Text(b"<a href='./'>configuration</a>"),
    Text(b", or the <a href='?sort=age'>longest silent</a> first.</p>\n<div class='wide'>"),
    Text(
        b"<table><tr><th>Station</th><th class='n'>Last came</th><th>Last hour</th><th class='minor'>\
        Last record</th><th class='n minor'>Held</th><th class='n minor'>\
        Next number</th><th class='minor'>Open to</th><th class='n'>Followers</th></tr>\n",
    ),
];

/// The row of a station, which stands out if the station is silent.
const STATION: &[Piece] = &[
    Text(b"<tr class='"),
    Value(Place::State),
    Text(b"'><td>"),
    Value(Place::Network),
    Text(b" "),
    Value(Place::Code),
    Text(b"<small>"),
    Value(Place::Description),
    Text(b"</small></td><td class='n age'>"),
    Value(Place::SilenceAge),
    Text(b"</td><td><svg viewBox='0 0 60 20' preserveAspectRatio='none' role='img'><path d='M0 20"),
    Value(Place::Bars),
    Text(b"V20z'/></svg></td><td class='minor'>"),
    Value(Place::Start),
    Text(b"<small>"),
    Value(Place::Stop),
    Text(b"</small></td><td class='n minor'>"),
    Value(Place::Held),
    Text(b" of "),
    Value(Place::Capacity),
    Text(b"</td><td class='n minor'>"),
    Value(Place::NextNumber),
    Text(b"</td><td class='who minor'>"),
    Value(Place::Users),
    Text(b"</td><td class='n'>"),
    Value(Place::Followers),
    Text(b"</td></tr>\n"),
];

/// The head of the table of clients.
const CLIENTS: &[Piece] = &[
    Text(b"</table></div>\n<h2>Clients</h2><div class='wide'><table><tr><th class='n'>Number</th>"),
    Text(
        b"<th>Address</th><th class='n minor'>Here for</th><th class='n minor'>Stations named</th>\
        <th class='n'>Bytes sent</th><th class='n'>Records ahead</th><th class='n'>Lost</th></tr>\n",
    ),
];

/// The row of a client.
const CLIENT: &[Piece] = &[
    Text(b"<tr><td class='n'>"),
    Value(Place::Number),
    Text(b"</td><td>"),
    Value(Place::Address),
    Text(b"</td><td class='n minor'>"),
    Value(Place::Here),
    Text(b" s</td><td class='n minor'>"),
    Value(Place::Named),
    Text(b"</td><td class='n'>"),
    Value(Place::Bytes),
    Text(b"</td><td class='n'>"),
    Value(Place::Ahead),
    Text(b"</td><td class='n'>"),
    Value(Place::Lost),
    Text(b"</td></tr>\n"),
];

/// The page.
static PAGE: [Section; 7] = [
    Section::Once(TOP),
    Section::AwayAtAll(AWAY),
    Section::Once(STATIONS),
    Section::Stations(StationRows {
        chosen: Chosen::All,
        pieces: STATION,
    }),
    Section::Once(CLIENTS),
    Section::Clients(CLIENT),
    Section::Once(&[Text(b"</table></div></body></html>\n")]),
];

/// The page.
pub fn page() -> &'static [Section] {
    &PAGE
}
