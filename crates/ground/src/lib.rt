// What every floor says of members, tests, tables and ranges: laws and definitions, and a member of an array by its place.
#![tactic(auto)]

pub mod places;
