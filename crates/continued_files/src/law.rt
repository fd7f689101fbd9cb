//! The law of readers that go on one after the other: a public function with an empty body, whose contract is the law.
ghost use Rattle.continued_files.specs.Runs.{HoldsOnce, Moment, Reaches, Series};

/// However often readers are stopped, and wherever, each record that they were handed stands in the file once, and what
/// was handed before a state was kept stands there for good.
pub fn each_record_stands_once()
    ensures { (s : Series) (m : Moment) → Reaches s m → HoldsOnce s m }
{}
