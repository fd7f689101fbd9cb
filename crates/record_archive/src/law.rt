//! Laws of the places of records: public functions with an empty body, whose contract is the law.
ghost use Rattle.record_archive.specs.Apart.{AreBelowTheirStation, ArePutApart};

/// Records of two streams are never put into one file.
pub fn are_put_apart()
    ensures { ArePutApart }
{}

/// A record is put into a file in the folders of its station, and never into one of another station.
pub fn are_below_their_station()
    ensures { AreBelowTheirStation }
{}
