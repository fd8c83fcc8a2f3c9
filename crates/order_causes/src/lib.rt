// Why a list is refused at questions 2 and 3, in terms of the orders that can be written, and why the definition's answers say that. No code.
#![tactic(auto)]
