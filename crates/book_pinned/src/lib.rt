#![tactic(auto)]

// That no other build of the setpoint book's calls meets what is asked: theorems only, specs/.
