// Why scales may be grown one denominator at a time, and scales that are worked out.
ghost use Rattle.scales.specs.Limited.{GrowsAsAWhole};
ghost use Rattle.scales.specs.Examples.{ScalesWork};

// Grown one by one, a scale is the least common multiple of all, or nothing where that is over the
// limit: once over it, it stays over.
pub fn scales_grow()
    ensures { GrowsAsAWhole }
{}

// Scales and ticks that are worked out.
pub fn scales_work()
    ensures { ScalesWork }
{}
