//! What the report of a crew says of numbers that rise.
ghost use Rattle.aero_worker.specs.Laws.{PartsRise};

/// Where the numbers posted rise, so does each list of a report, which is a part of them in order.
pub fn parts_of_rising_numbers_rise()
    ensures { PartsRise }
{}
