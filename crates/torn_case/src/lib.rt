// No code: an image that a cut may leave and that no stores in order leave.
#![tactic(auto)]
