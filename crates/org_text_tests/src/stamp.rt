//! Moments, timestamps and durations, on dates taken from calendars. Repeaters, commands show
//! (tests/program/commands).
mod durations;
mod moments;
mod timestamps;
