// Tests of logs, drafts, rows, layers and visits on plans, damaged logs and spoilt rows.
#![tactic(auto)]

#[cfg(test)]
mod dot;
#[cfg(test)]
mod drafts;
#[cfg(test)]
mod handed;
#[cfg(test)]
mod layering;
#[cfg(test)]
mod openings;
#[cfg(test)]
mod plans;
#[cfg(test)]
mod visiting;
