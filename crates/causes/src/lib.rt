// Why an order is refused: the cause of each refusal as a condition, and why an outcome that is a refusal has its cause. No code.
#![tactic(auto)]
