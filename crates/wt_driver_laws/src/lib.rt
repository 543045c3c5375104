//! What the driver's steps on its data mean by the log: a law for each call, which the driver's contracts cite. There is no code here.
#![tactic(auto)]
