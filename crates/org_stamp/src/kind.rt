//! What the parts of a timestamp say: values without bytes.

/// What a repeater counts (Org manual, "Repeated tasks").
#[derive(Clone, Copy)]
pub enum Unit {
    /// `h`
    Hour,
    /// `d`
    Day,
    /// `w`
    Week,
    /// `m`
    Month,
    /// `y`
    Year,
}

/// What a timestamp is moved by: each unit is a number of one of these.
#[derive(Clone, Copy)]
pub enum Base {
    Minutes,
    Days,
    Months,
}

/// How a repeater moves a timestamp (Org manual, "Repeated tasks").
#[derive(Clone, Copy)]
pub enum Mark {
    /// `+`: one step from the timestamp.
    Cumulate,
    /// `++`: steps from the timestamp until it lies ahead.
    CatchUp,
    /// `.+`: one step from now.
    Restart,
}

/// The minutes of the day at which a timestamp starts and, for a range, ends.
#[derive(Clone, Copy)]
pub struct Times {
    /// From 0 for 0:00 to 1439 for 23:59.
    pub start: u16,
    /// The same, where there is a range; it may lie before the start.
    pub end: Option<u16>,
}

/// A number of units, as `2w`.
#[derive(Clone, Copy)]
pub struct Interval {
    /// From 0 to 9999.
    pub value: u16,
    pub unit: Unit,
}

/// A repeater, as `.+2w`.
#[derive(Clone, Copy)]
pub struct Repeater {
    pub mark: Mark,
    pub interval: Interval,
}

/// What a part says.
#[derive(Clone, Copy)]
pub enum Kind {
    /// The day's name, in any language; it says nothing.
    Name,
    /// A time, or a range of two.
    Clock(Times),
    Repeat(Repeater),
    /// A delay of a warning, as `-2d` (Org manual, "Deadlines and Scheduling"); it is only kept.
    Delay,
}
