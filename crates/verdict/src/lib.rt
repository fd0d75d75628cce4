// The answers to a state, a proposed density and a proposed pair at 32 or 53 bits, by a table of either kind: the numbers, places and ends of documents 01 and 02.
// Nothing here writes to the lent table.
#![tactic(auto)]

mod widths; // widths.rt: which widths there are
mod refusals; // refusals.rt: a test as a step that may refuse, and what a refusal becomes
mod settings; // settings.rt: a width and a sound table
mod handed; // handed.rt: ends handed out, and their tests
pub mod phases; // phases.rt: one phase in one pass over the table
pub mod densities; // densities.rt: the density check
pub mod pairs; // pairs.rt: the pair check
pub mod sheets; // sheets.rt: the state sheet

pub use densities::density_check;
pub use handed::handed_out;
pub use pairs::pair_check;
pub use settings::Setting;
pub use sheets::state_sheet;
pub use widths::sound_width;

// A state: temperature in K, density in kg/m3.
#[derive(Clone, Copy)]
pub struct State {
    pub temperature: f64,
    pub density: f64,
}

// How far the two phases of a pair may lie apart: in pressure in Pa, in Gibbs energy in J/kg.
#[derive(Clone, Copy)]
pub struct Tolerances {
    pub pressure: f64,
    pub gibbs: f64,
}

// A bracket as it is handed out.
#[derive(Clone, Copy)]
pub struct Ends {
    pub lower: f64,
    pub upper: f64,
}

// A refusal with no ends: the numbers 19 and 29, then 1 to 8. A broken term has its place, counted from 1.
#[derive(Clone, Copy)]
pub enum Refusal {
    Width,
    Kind,
    TableLength,
    BrokenTerm(usize),
    Temperature,
    Density,
    Target,
    Tolerance,
    Sides,
    Ceiling,
}

// What the state sheet hands out.
#[derive(Clone, Copy)]
pub struct StateSheet {
    pub pressure: Ends,
    pub stiffness: Ends,
}

// Why the density check or the pair check says no: refused with nothing, or with what did not pass.
#[derive(Clone, Copy)]
pub enum Rejection {
    Refused(Refusal),
    VapourPressure(Ends),
    PressureGap(Ends),
    GibbsGap(Ends),
    Stiffness(Ends),
}
