//! What is proved of the console's definitions: of a line's answer, of a list and a read against the
//! rules, and of whole inputs. No code: the theorems stand in specs/.
#![tactic(auto)]
