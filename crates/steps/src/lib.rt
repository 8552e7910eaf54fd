// An ordering placed step by step, on labels that are kept as words and the running values beside them: placed again up to the first vertex that
// was not offered. The graph may be given in any form.
#![tactic(auto)]

pub mod place;
pub mod replay;
