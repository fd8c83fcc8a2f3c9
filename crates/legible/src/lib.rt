// That every number on the pages is the sheet's, and stands there once (document 02, K3). No code.
#![tactic(auto)]
