//! Where two configurations differ first, whoever may use their stations.
ghost use Rattle.std.specs.Prelude.{◌≡◌, ◌↔◌, true, IfOk, IsNone, find, map, option_map};
ghost use Rattle.protocol.specs.Catalog.{is_same_but_for_access};
ghost use Rattle.config_explained.specs.Differences.{IsFirstDifference, code_in, differing_among, differing_key};
ghost use Rattle.config_explained.specs.Differences.{differing_step, differs, network_in, setting_in, station_in};
ghost use Rattle.config_explained.specs.SettingValues.{setting_value};

use crate::key::{STATION_STEPS, is_same_setting, setting_of};
use crate::setting::Setting;
use catalog::{Config, Station, StationStep, Step};
use std::alloc::{AllocError, Global};

/// The first key in which two configurations differ, with its values.
#[derive(Drop)]
pub struct Difference {
    /// The step at which the key is read.
    pub step: Step,
    /// The codes in force of the station whose key it is.
    pub network: Option<Vec<u8>>,
    pub code: Option<Vec<u8>>,
    pub in_force: Setting,
    pub in_file: Setting,
}

/// The first key in which a configuration in force and another one differ, in the order in which keys are read, but for
/// access lists. None exactly if they are the same but for these. Only memory can lack.
#[tactic(auto, using(crate::proofs::DifferenceLemmas::first_lemmas))]
pub fn first_difference(
    alloc: Global,
    in_force: &Config,
    in_file: &Config,
) -> Result<Option<Difference>, AllocError>
    ensures first { IfOk result (IsFirstDifference in_force.now in_file.now) }
    ensures same { IfOk result (λ difference.
        IsNone difference ↔ (is_same_but_for_access in_force.now in_file.now ≡ true)) }
{
    match differing_step(in_force, in_file) {
        Some(step) => Ok(Some(Difference {
            step,
            network: network_in(alloc, in_force, step)?,
            code: code_in(alloc, in_force, step)?,
            in_force: setting_in(alloc, in_force, step)?,
            in_file: setting_in(alloc, in_file, step)?,
        })),
        None => Ok(None),
    }
}

/// The step at which the first key is read that differs.
fn differing_step(config: &Config, other: &Config) -> Option<Step>
    ensures { result ≡ differing_step config.now other.now }
{
    if config.title() != other.title() {
        Some(Step::Title)
    } else if config.max_connections() != other.max_connections() {
        Some(Step::MaxConnections)
    } else {
        differing_among(config.stations(), other.stations())
    }
}

/// The step at which the first key of stations is read that differs; that of `station` where one list ends before.
#[tactic(auto, using(crate::proofs::DifferenceLemmas::among_lemmas))]
fn differing_among(stations: &[Station], others: &[Station]) -> Option<Step>
    ensures { result ≡ differing_among 0 (map (λ e. e.station) stations.now) (map (λ e. e.station) others.now) }
{
    for (place, station) in stations.iter().enumerate() {
        if others.len() <= place {
            return Some(Step::Stations);
        }
        if let Some(key) = differing_key(station, &others[place]) {
            return Some(Step::Station(place, key));
        }
    }
    if stations.len() < others.len() {
        Some(Step::Stations)
    } else {
        None
    }
}

/// The first of some keys in which two stations differ, by the steps that take them.
fn first_differing(station: &Station, other: &Station, steps: &[StationStep]) -> Option<StationStep>
    ensures { result ≡ find (differs station.now.station other.now.station) steps.now }
{
    for step in steps {
        if !is_same_setting(station, other, *step) {
            return Some(*step);
        }
    }
    None
}

/// The first key in which two stations differ.
fn differing_key(station: &Station, other: &Station) -> Option<StationStep>
    ensures { result ≡ differing_key station.now.station other.now.station }
{
    first_differing(station, other, &STATION_STEPS)
}

/// The value of the key that a step reads.
fn setting_in(alloc: Global, config: &Config, step: Step) -> Result<Setting, AllocError>
    ensures { IfOk result (λ setting. setting_value setting ≡ setting_in config.now step) }
{
    match step {
        Step::Title => Ok(Setting::Text(config.title().to_vec(alloc)?)),
        Step::MaxConnections => Ok(Setting::Number(config.max_connections())),
        Step::Stations => Ok(Setting::Number(config.stations().len())),
        Step::Station(place, key) => match config.stations().get(place) {
            Some(station) => setting_of(alloc, station, key),
            None => Ok(Setting::Nothing),
        },
        _ => Ok(Setting::Nothing),
    }
}

/// The station whose key a step reads.
fn station_in(config: &Config, step: Step) -> Option<&Station>
    ensures { option_map (λ e. e.now.station) result ≡ station_in config.now step }
{
    match step {
        Step::Station(place, _) => config.stations().get(place),
        _ => None,
    }
}

/// The network of the station whose key a step reads.
fn network_in(alloc: Global, config: &Config, step: Step) -> Result<Option<Vec<u8>>, AllocError>
    ensures { IfOk result (λ text. option_map (λ t. t.items) text ≡ network_in config.now step) }
{
    match station_in(config, step) {
        Some(station) => Ok(Some(station.network().to_vec(alloc)?)),
        None => Ok(None),
    }
}

/// The code of the station whose key a step reads.
fn code_in(alloc: Global, config: &Config, step: Step) -> Result<Option<Vec<u8>>, AllocError>
    ensures { IfOk result (λ text. option_map (λ t. t.items) text ≡ code_in config.now step) }
{
    match station_in(config, step) {
        Some(station) => Ok(Some(station.code().to_vec(alloc)?)),
        None => Ok(None),
    }
}
