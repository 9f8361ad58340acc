// Definitions alone: any sequence of releases of one image, and the audit of what it leaves (document 02, #113).
#![tactic(auto)]
