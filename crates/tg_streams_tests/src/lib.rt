//! The tests of `tg_streams`, `tg_links`, `tg_doors` and `tg_dials` that are no rows: a pipe, a door, a dial and their links
//! over sockets, adapters that tell their bytes, and a two-way stream. All that is in memory stands in `tg_gateway_rows`.
#![tactic(auto)]

#[cfg(test)]
mod sockets;
#[cfg(test)]
mod standard;
#[cfg(test)]
mod told;
#[cfg(test)]
mod two_way;
