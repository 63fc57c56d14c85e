//! Worked drills, configurations and mappings: what `leafd drill` prints of scripts, `leafd check` of files, and
//! `leafd map` of subjects.
#![tactic(auto)]

#[cfg(test)]
mod checks;
#[cfg(test)]
mod faults;
#[cfg(test)]
mod hostile;
#[cfg(test)]
mod maps;
#[cfg(test)]
mod rows;
#[cfg(test)]
mod run;
