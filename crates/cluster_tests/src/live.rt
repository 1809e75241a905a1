//! Tests of running clusters: passes and records worked by hand, stations that are held, that stop and that are lied
//! to, rough roads, limits, and clusters that run.
mod beats;
mod calls;
mod closes;
mod closing;
mod crews;
mod gates;
mod holds;
mod limits;
mod looks;
mod pacing;
mod parcels;
mod passes;
mod records;
mod reports;
mod roads;
mod running;
mod scripts;
mod stops;
mod watches;
