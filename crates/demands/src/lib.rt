//! No code: what is claimed of the manager's crash-safety, and proved of document 01's definitions, stands in specs/.
#![tactic(auto)]
