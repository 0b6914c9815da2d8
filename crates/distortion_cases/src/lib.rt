// Cases of the distortion that injected currents cause. Their numbers were worked by hand.
#![tactic(auto)]

#[cfg(test)]
mod bounds;
#[cfg(test)]
mod coupled_lines;
#[cfg(test)]
mod networks;
#[cfg(test)]
mod solutions;
