//! Which states are accepted. Headings, commands show (tests/program/commands).
mod states;
