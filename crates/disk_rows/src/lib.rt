//! Worked disks: the edges and their folders, disks in memory and their crashes, journals and stores.
#![tactic(auto)]

#[cfg(test)]
mod disks;
#[cfg(test)]
mod edges;
#[cfg(test)]
mod files;
#[cfg(test)]
mod folders;
#[cfg(test)]
mod journals;
#[cfg(test)]
mod logs;
#[cfg(test)]
mod stores;
#[cfg(test)]
mod table;
